// Paths back from an arc to a household of A, through the arcs by which a search reached its households.
ghost use Rattle.std.specs.Prelude.{◌≡◌, ◌<◌, min, length};
ghost use Rattle.flows.specs.Paths.{tail};
ghost use Rattle.flows.specs.Levels.{arc_to};
ghost use Rattle.flow.specs.Searching.{room_in, least_room_in, path_to, IsOpen, SendsAlong};

use super::network::Search;
use flows::Arc;

impl Search<'_, '_> {
    // The arc before one: that by which the household was reached that it comes from, if by one.
    fn before(&self, arc: Arc) -> Option<Arc>
        requires { arc.link < length self.now.network.links.now }
        ensures { result ≡ arc_to self.now.marks.now (tail self.now.network.links.now arc) }
    {
        self.marks[self.network.tail(arc)].arc()
    }

    // The lesser of an amount and the room along an arc.
    fn lesser(&self, arc: Arc, amount: u32) -> u32
        requires { arc.link < length self.now.network.links.now }
        ensures { result ≡ min amount (room_in self.now arc) }
    {
        amount.min(self.room_along(arc))
    }

    // The least room along the path that an arc ends; the arc before it is given.
    fn least_room(&self, last: Arc, before: Option<Arc>) -> u32
        requires there { last.link < length self.now.network.links.now }
        requires before { before ≡ arc_to self.now.marks.now (tail self.now.network.links.now last) }
        ensures { result ≡ least_room_in self.now last }
    {
        let mut least = self.room_along(last);
        let mut next = before;
        while let Some(arc) = next {
            least = self.lesser(arc, least);
            next = self.before(arc);
        }
        least
    }

    // Sends an amount along the path that an arc ends; the arc before it is given.
    // The same walk again, of three lines: an iterator for both would be a type with a contract and a proof of its own.
    fn send_back(&mut self, last: Arc, before: Option<Arc>, amount: u32)
        requires open { IsOpen self.old amount (path_to self.old last) }
        requires before { before ≡ arc_to self.old.marks.now (tail self.old.network.links.now last) }
        ensures { SendsAlong self.old self.new amount (path_to self.old last) }
    {
        self.send_along(last, amount);
        let mut next = before;
        while let Some(arc) = next {
            self.send_along(arc, amount);
            next = self.before(arc);
        }
    }

    // Sends as much as there is room for along the path that an arc ends, and answers how much.
    pub(crate) fn send_most(&mut self, last: Arc) -> u32
        requires { IsOpen self.old (least_room_in self.old last) (path_to self.old last) }
        ensures amount { result ≡ least_room_in self.old last }
        ensures after { SendsAlong self.old self.new result (path_to self.old last) }
    {
        // The arc before the last is looked up once for both walks: many paths have few arcs.
        let before = self.before(last);
        let amount = self.least_room(last, before);
        self.send_back(last, before, amount);
        amount
    }
}
