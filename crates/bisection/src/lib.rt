// Lists of lots of a parish: what they weigh, what a bisection costs, and which bisections are lawful. The definitions that
// every later promise rests on stand in specs/.
#![tactic(auto)]

pub mod costs;
pub mod laws;
pub mod lots;
pub mod weights;

pub use costs::cost;
pub use lots::{IN_A, IN_B, UNSET, lots_fit};
pub use weights::{LotWeights, lot_weights};
