// What a lower bound is good for.
ghost use Rattle.std.specs.Prelude.{◌≡◌, length};
ghost use Rattle.parish.specs.View.{view};
ghost use Rattle.bounds.specs.Consulting.{LeastCost};

use super::lower::LowerBound;
use parish::{MOST_LINKS, Parish, Refusal};

// A number that no bisection undercuts which extends the list and keeps both lots within the cap.
pub fn least_cost<B: LowerBound>(
    bound: &B,
    parish: &Parish,
    cap: u32,
    lots: &[u8],
) -> Result<u32, Refusal>
    ensures { LeastCost (B.meaning bound.now).number (view parish.now) «cap» lots.now result }
{
    // The charges are not wanted: scratch on the stack, since a bound allocates nothing.
    let mut charges = [0; MOST_LINKS];
    least_cost_by(
        bound,
        parish,
        cap,
        lots,
        &mut charges[..parish.links().len()],
    )
}

// The same, with a place for each charge. Apart from the scratch: in one function a wrong cap would be refused in a proof file
// and not here.
fn least_cost_by<B: LowerBound>(
    bound: &B,
    parish: &Parish,
    cap: u32,
    lots: &[u8],
    charges: &mut [u32],
) -> Result<u32, Refusal>
    requires { length charges.old ≡ length (view parish.now).links }
    ensures { LeastCost (B.meaning bound.now).number (view parish.now) «cap» lots.now result }
{
    bound.consult(parish, cap, lots, charges)
}
