// The theory of the flow layer: the least cut between the households set in A and those set in B, and one greatest flow
// from the first to the second, found by searches level by level.
#![tactic(auto)]

pub mod items;
pub mod laws;

pub use items::{Arc, Mark};
