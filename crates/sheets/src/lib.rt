// Two sheets of text read into a parish, or told exactly what is wrong with them.
#![tactic(auto)]

mod fields;
pub mod kinds;
pub mod loading;
mod reader;
pub mod spots;

pub use loading::read;
pub use spots::spot;
