// The layer itself.
ghost use Rattle.std.specs.Prelude.{◌≡◌, ℕ, ◌+◌, ◌≤◌, length, slice_index, take};
ghost use Rattle.parish.specs.Limits.{strongest_held};
ghost use Rattle.parish.specs.View.{view};
ghost use Rattle.bisection.specs.Weights.{least_lot_weight};
ghost use Rattle.bounds.specs.Adding.{added};
ghost use Rattle.bounds.specs.Consulting.{Consulted};
ghost use Rattle.forest.specs.Grounds.{ground_for};
ghost use Rattle.forest.specs.Layers.{packed_charges, packed_number, packing_over};
ghost use Rattle.packing.specs.Grounded.{ground_of};
ghost use Rattle.forest.proofs.Theorems.{packing_bounds};

use super::counting::fewest;
use super::growth::Growth;
use super::question::Question;
use bounds::LowerBound;
use parish::{Lot, MOST_LINKS, Parish, Refusal};

// Over any bound: grows trees from the home lot along what the bound leaves of the links. A bisection within the cap must hit
// some of them, and cuts a link of each that it hits: the number rises by the fewest that it can hit, and the charge of each
// link of a tree by 1.
#[derive(Clone, Copy)]
pub struct Packing<B> {
    pub below: B,
    pub home: Lot,
}

impl<B: LowerBound> LowerBound for Packing<B> {
    ghost meaning = { λ s. packing_over s.home (B.meaning s.below) };

    ghost bounds = { λ s m limit lots sound ok. packing_bounds s.home (B.meaning s.below) m limit lots sound ok (B.bounds s.below m limit lots sound ok) };

    fn consult(
        &self,
        parish: &Parish,
        cap: u32,
        lots: &[u8],
        charges: &mut [u32],
    ) -> Result<u32, Refusal> {
        consult_over(&self.below, self.home, parish, cap, lots, charges)
    }
}

// Consults the bound below, and adds what the trees add to what it answers.
// Each layer has such a function, and not `bounds` one for all: `add_packing` asks by a `requires` for the charges of a bound,
// and no public function has one.
fn consult_over<B: LowerBound>(
    below: &B,
    home: Lot,
    parish: &Parish,
    cap: u32,
    lots: &[u8],
    charges: &mut [u32],
) -> Result<u32, Refusal>
    ensures { Consulted (packing_over home (B.meaning below.now)) (view parish.now) «cap» lots.now charges.old charges.new result }
{
    let number = below.consult(parish, cap, lots, charges)?;
    let more = add_packing(parish, home, cap, lots, charges);
    Ok(number + more)
}

// What packing adds to the number, and to the charge of each link, in an array as `Growth` has it.
#[derive(Drop)]
struct Packed {
    number: u32,
    charges: [u8; MOST_LINKS],
}

// Grows the forest of a question, and counts the trees that a bisection must hit, where a lot weighs at least so much.
fn pack(question: &Question, least: u32) -> Packed
    ensures number { result.number ≡ packed_number (ground_of question.now) least }
    ensures charges { take (ground_of question.now).links result.charges ≡ packed_charges (ground_of question.now) }
{
    let mut growth = Growth::new(question);
    let roots = growth.plant();
    growth.grow();
    let goal = growth.target(least);
    let number = fewest(&mut growth.trees[..question.households.len()], roots, goal);
    Packed {
        number,
        charges: growth.taken,
    }
}

// Adds each extra charge to the charge in its place. One for this and its like in flow would be public, and ask by a `requires`
// for room.
fn add_taken(charges: &mut [u32], taken: &[u8])
    requires same { length charges.old ≡ length taken.now }
    requires small { (k : ℕ) → slice_index charges.old k + slice_index taken.now k ≤ strongest_held }
    ensures { charges.new ≡ added charges.old taken.now }
{
    // Written by index: of what is written through a zipped `iter_mut` the prover knows nothing.
    for (link, extra) in taken.iter().enumerate() {
        charges[link] += u32::from(*extra);
    }
}

// Adds what packing adds to each charge, and answers what it adds to the number.
// That there is a charge for each link is asked here and in the other layer, since the bound below has tested it.
fn add_packing<'a>(
    parish: &'a Parish,
    home: Lot,
    cap: u32,
    lots: &'a [u8],
    charges: &mut [u32],
) -> u32
    requires lots_fit { length lots.now ≡ length (view parish.now).households }
    requires charges_fit { length charges.old ≡ length (view parish.now).links }
    requires small { (k : ℕ) → slice_index charges.old k + slice_index (packed_charges (ground_for home (view parish.now) lots.now charges.old)) k ≤ strongest_held }
    ensures number { result ≡ packed_number (ground_for home (view parish.now) lots.now charges.old) (least_lot_weight (view parish.now) «cap») }
    ensures charges { charges.new ≡ added charges.old (packed_charges (ground_for home (view parish.now) lots.now charges.old)) }
{
    let question = Question {
        households: parish.households(),
        links: parish.links(),
        lots,
        charges,
        home,
    };
    let least = parish.total_weight().saturating_sub(cap);
    let packed = pack(&question, least);
    add_taken(charges, &packed.charges[..charges.len()]);
    packed.number
}
