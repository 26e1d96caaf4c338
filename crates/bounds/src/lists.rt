// What a lower bound can be consulted with.
ghost use Rattle.std.specs.Prelude.{MatchBool, MatchResult};
ghost use Rattle.parish.specs.View.{view};
ghost use Rattle.bounds.specs.Consulting.{Fit, NoAnswer};

use bisection::lots_fit;
use parish::{Parish, Refusal};

// Whether a list of lots and a list of charges fit a parish.
#[tactic(auto, using(crate::proofs::Fitting::by_lots))]
pub fn lists_fit(parish: &Parish, lots: &[u8], charges: &[u32]) -> bool
    ensures { MatchBool result (Fit (view parish.now) lots.now charges.now) (Fit (view parish.now) lots.now charges.now → ⊥) }
{
    charges.len() == parish.links().len() && lots_fit(parish, lots)
}

// Refuses lists that do not fit.
pub(crate) fn check_lists(parish: &Parish, lots: &[u8], charges: &[u32]) -> Result<(), Refusal>
    ensures { MatchResult result (λ _. Fit (view parish.now) lots.now charges.now)
        (λ refusal. NoAnswer (view parish.now) lots.now charges.now charges.now refusal) }
{
    if lists_fit(parish, lots, charges) {
        Ok(())
    } else {
        Err(Refusal::WrongList)
    }
}
