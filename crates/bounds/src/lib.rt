// Lower bounds on the cost of every bisection that extends a list of lots.
#![tactic(auto)]

pub mod bare;
pub mod decided;
pub mod laws;
pub mod lists;
pub mod lower;
pub mod using;

pub use bare::Bare;
pub use decided::Decided;
pub use lists::lists_fit;
pub use lower::LowerBound;
pub use using::least_cost;
