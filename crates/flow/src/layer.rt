// The layer itself.
ghost use Rattle.parish.specs.View.{view};
ghost use Rattle.bounds.specs.Consulting.{Consulted};
ghost use Rattle.flows.specs.Layers.{flow_over};
ghost use Rattle.flows.proofs.Theorems.{flow_bounds};

use super::charges::add_flow;
use bounds::LowerBound;
use parish::{Parish, Refusal};

// Over any bound: adds a greatest flow from the households set in A to those set in B, through what the bound leaves of each
// link. The number rises by as much as flows, and each charge by what flows on its link.
#[derive(Clone, Copy)]
pub struct Flow<B>(pub B);

impl<B: LowerBound> LowerBound for Flow<B> {
    ghost meaning = { λ s. flow_over (B.meaning s.0) };

    ghost bounds = { λ s m limit lots sound ok. flow_bounds (B.meaning s.0) m limit lots sound ok (B.bounds s.0 m limit lots sound ok) };

    fn consult(
        &self,
        parish: &Parish,
        cap: u32,
        lots: &[u8],
        charges: &mut [u32],
    ) -> Result<u32, Refusal> {
        consult_over(&self.0, parish, cap, lots, charges)
    }
}

// Consults the bound below, and adds the flow to what it answers.
// Each layer has such a function, and not `bounds` one for all: `add_flow` asks by a `requires` for the charges of a bound, and
// no public function has one.
fn consult_over<B: LowerBound>(
    below: &B,
    parish: &Parish,
    cap: u32,
    lots: &[u8],
    charges: &mut [u32],
) -> Result<u32, Refusal>
    ensures { Consulted (flow_over (B.meaning below.now)) (view parish.now) «cap» lots.now charges.old charges.new result }
{
    let number = below.consult(parish, cap, lots, charges)?;
    let sent = add_flow(parish, lots, charges);
    Ok(number + sent)
}
