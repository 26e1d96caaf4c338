// From the charges below to the charges with the flow added.
ghost use Rattle.std.specs.Prelude.{◌≡◌, ℕ, ◌+◌, ◌≤◌, length, slice_index};
ghost use Rattle.parish.specs.Limits.{strongest_held};
ghost use Rattle.parish.specs.View.{view};
ghost use Rattle.bisection.specs.Lots.{Lots};
ghost use Rattle.bounds.specs.Bounds.{strengths};
ghost use Rattle.bounds.specs.Adding.{added};
ghost use Rattle.bounds.specs.Left.{left_of};
ghost use Rattle.flows.specs.Cuts.{least_cut};
ghost use Rattle.flows.specs.Paths.{distance};
ghost use Rattle.flows.specs.Levels.{flow_charges};
ghost use Rattle.flow.specs.Searching.{amounts_in};

use super::marked::Marked;
use super::network::{Network, Search};
use parish::{Link, MOST_HOUSEHOLDS, MOST_LINKS, Parish};

// Fills left with what charges leave of each link.
// Written by index, and so read by it: of what is written through a zipped `iter_mut` the prover knows nothing.
fn fill_left(links: &[Link], charges: &[u32], left: &mut [u32])
    requires charges_fit { length charges.now ≡ length links.now }
    requires left_fit { length left.old ≡ length links.now }
    requires within { (k : ℕ) → slice_index charges.now k ≤ slice_index (strengths links.now) k }
    ensures { left.new ≡ left_of links.now charges.now }
{
    for (k, link) in links.iter().enumerate() {
        left[k] = link.strength - charges[k];
    }
}

// The amount of flow on a link, whichever way: how far its room is from what was left.
fn amount_on(left: u32, room: u32) -> u32
    ensures { result ≡ distance left room }
{
    left.abs_diff(room)
}

impl Search<'_, '_> {
    // Adds to each charge the amount of flow on its link.
    // Written by index, as above. One for this and its like in packing would be public, and ask by a `requires` for room.
    fn add_amounts(&self, charges: &mut [u32])
        requires fit { length charges.old ≡ length self.now.network.links.now }
        requires small { (k : ℕ) → slice_index charges.old k + slice_index (amounts_in self.now) k ≤ strongest_held }
        ensures { charges.new ≡ added charges.old (amounts_in self.now) }
    {
        for (k, rest) in self.network.left.iter().enumerate() {
            charges[k] += amount_on(*rest, self.room[k]);
        }
    }
}

// Adds a greatest flow through what charges leave to them, and answers how much it is.
// That there is a charge for each link is asked here and in the other layer, since the bound below has tested it.
pub(crate) fn add_flow<'a>(parish: &'a Parish, lots: &'a [u8], charges: &mut [u32]) -> u32
    requires fit { Lots (view parish.now) lots.now }
    requires charges_fit { length charges.old ≡ length (view parish.now).links }
    requires within { (k : ℕ) → slice_index charges.old k ≤ slice_index (strengths (view parish.now).links) k }
    ensures sent { result ≡ least_cut (view parish.now) lots.now (left_of (view parish.now).links charges.old) }
    ensures after { charges.new ≡ added charges.old (flow_charges (view parish.now) lots.now (left_of (view parish.now).links charges.old)) }
{
    // Scratch on the stack, cut to the parish: a bound allocates nothing.
    let mut left_scratch = [0; MOST_LINKS];
    let mut room_scratch = [0; MOST_LINKS];
    let mut mark_scratch = [Marked::none(); MOST_HOUSEHOLDS];
    let left = &mut left_scratch[0..charges.len()];
    let room = &mut room_scratch[0..charges.len()];
    let marks = &mut mark_scratch[..];
    fill_left(parish.links(), charges, left);
    room.copy_from_slice(left);
    let network = Network {
        links: parish.links(),
        lots,
        left,
    };
    let mut search = Search {
        network,
        room,
        marks: &mut marks[..lots.len()],
    };
    let sent = search.send_all();
    search.add_amounts(charges);
    sent
}
