// Reports as text, written into bytes that the caller lends.
#![tactic(auto)]

pub mod parishes;
pub mod reports;
mod rows;

pub use parishes::report_sheets;
pub use reports::{Report, Summary};
