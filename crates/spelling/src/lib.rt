// What the two sheets of a parish mean: how a parish is spelled, and which fault of a pair of sheets is the first.
#![tactic(auto)]

pub mod counts;
pub mod laws;

pub use counts::Counts;
