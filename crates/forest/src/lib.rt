// The theory of the packing layer: trees grown from a home lot along usable links, and the fewest of them that reach a target.
#![tactic(auto)]

pub mod laws;
