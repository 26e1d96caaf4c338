// Packing, a layer over any lower bound. What its trees are is defined in the crate `forest`.
#![tactic(auto)]

mod counting;
mod growing;
mod growth;
pub mod layer;
mod planting;
mod question;

pub use layer::Packing;
