// The nodes of a search, those that stand, and what a pruned search makes of them. The definitions stand in specs/, and
// each law of them on the contract of a function.
#![tactic(auto)]

pub mod laws;
