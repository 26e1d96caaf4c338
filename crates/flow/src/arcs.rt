// Arcs: a link gone one way or the other, with the room that way. An arc names its link by number, of whatever network it is:
// a type that bounds the number would have to name the network, so each function here, in levels and in paths asks for it.
ghost use Rattle.std.specs.Prelude.{◌≡◌, ◌<◌, ◌≤◌, [], ◌∷◌, length};
ghost use Rattle.flows.specs.Paths.{tail as tail_of, head as head_of};
ghost use Rattle.flow.specs.Searching.{room_in, SendsAlong};

use super::network::{Network, Search};
use flows::Arc;

impl Network<'_> {
    // The household that an arc comes from.
    pub(crate) fn tail(&self, arc: Arc) -> usize
        requires { arc.link < length self.now.links.now }
        ensures { result ≡ tail_of self.now.links.now arc }
    {
        let link = &self.links[arc.link];
        if arc.onward { link.from } else { link.to }
    }

    // The household that it leads to.
    // A mirror of the other: one function for the pair of ends would hide at each use which of them is meant.
    pub(crate) fn head(&self, arc: Arc) -> usize
        requires { arc.link < length self.now.links.now }
        ensures { result ≡ head_of self.now.links.now arc }
    {
        let link = &self.links[arc.link];
        if arc.onward { link.to } else { link.from }
    }
}

impl Search<'_, '_> {
    // How much more can be sent along an arc.
    pub(crate) fn room_along(&self, arc: Arc) -> u32
        requires { arc.link < length self.now.network.links.now }
        ensures { result ≡ room_in self.now arc }
    {
        if arc.onward {
            self.room[arc.link]
        } else {
            2 * self.network.left[arc.link] - self.room[arc.link]
        }
    }

    // Sends an amount along an arc.
    pub(crate) fn send_along(&mut self, arc: Arc, amount: u32)
        requires there { arc.link < length self.old.network.links.now }
        requires enough { amount ≤ room_in self.old arc }
        ensures { SendsAlong self.old self.new amount (arc ∷ []) }
    {
        if arc.onward {
            self.room[arc.link] -= amount;
        } else {
            self.room[arc.link] += amount;
        }
    }
}
