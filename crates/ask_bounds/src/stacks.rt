// The stacks of bounds that can be asked, by name: the layers from the top, and the ground bound last.
ghost use Rattle.std.specs.Prelude.{IfSome};
ghost use Rattle.parish.specs.View.{view};
ghost use Rattle.ask_bounds.specs.Told.{Told};

use bounds::{Bare, Decided, LowerBound};
use flow::Flow;
use parish::{Parish, Refusal};

// Consults the stack of a name, if there is one. A stack more is a line more.
pub(crate) fn consult(
    stack: &str,
    parish: &Parish,
    cap: u32,
    lots: &[u8],
    charges: &mut [u32],
) -> Option<Result<u32, Refusal>>
    ensures { IfSome result (λ told. Told (view parish.now) «cap» lots.now charges.old charges.new told) }
{
    let bound: &dyn LowerBound = match stack {
        "bare" => &Bare,
        "decided" => &Decided,
        "flow bare" => &Flow(Bare),
        "flow decided" => &Flow(Decided),
        "flow flow decided" => &Flow(Flow(Decided)),
        _ => return None,
    };
    Some(bound.consult(parish, cap, lots, charges))
}
