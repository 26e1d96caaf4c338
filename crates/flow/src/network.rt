// What a search reads, and what it changes. This file has the structs alone, since a file of specs/ that names them cannot be
// imported at its head.
ghost use Rattle.std.specs.Prelude.{length};
ghost use Rattle.std.proofs.Props.{props};
ghost use Rattle.flows.specs.Rounds.{Roomed};
ghost use Rattle.flows.specs.Trees.{IsNetwork, Tree};

use super::marked::Marked;
use parish::Link;

// The links of a parish, a lot or none for each household, and how much charges leave of each link.
#[derive(Clone, Copy)]
pub(crate) struct Network<'a> {
    pub(crate) links: &'a [Link],
    pub(crate) lots: &'a [u8],
    pub(crate) left: &'a [u32],
    ghost fits: { IsNetwork links.now left.now (length lots.now) },
}

// A search of a network, in lent scratch: the room of each link so far, and how each household was reached.
// Two lists of numbers, what is left and the room: the form in which the laws and the charges speak of links. That marks have
// at most one proof of being a tree is shown by `Prim.hlevel`.
#[derive(Drop)]
pub(crate) struct Search<'n, 'a> {
    pub(crate) network: Network<'n>,
    pub(crate) room: &'a mut [u32],
    pub(crate) marks: &'a mut [Marked],
    ghost roomed: { Roomed network.links.now network.left.now room.now },
    ghost tree: { Tree network.links.now network.lots.now marks.now } by { Prim.hlevel props },
}
