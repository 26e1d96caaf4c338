// A parish: its households, the links between them, and what it refuses.
#![tactic(auto)]

pub mod items;
pub mod limits;
pub mod refusals;
pub mod store;

pub use items::{Household, Link, Lot};
pub use limits::{MOST_HOUSEHOLDS, MOST_LINKS, MOST_STRENGTH, MOST_TOLERANCE, MOST_WEIGHT};
pub use refusals::Refusal;
pub use store::Parish;
