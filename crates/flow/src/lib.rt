// Flow, a layer over any lower bound. How it finds its flow is defined, level by level, in the crate `flows`.
#![tactic(auto)]

mod arcs;
mod charges;
pub mod layer;
mod levels;
mod marked;
mod network;
mod paths;
mod rounds;

pub use layer::Flow;
