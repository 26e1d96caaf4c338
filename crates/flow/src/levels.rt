// A search for shortest paths from A to B, level by level.
ghost use Rattle.std.specs.Prelude.{◌≡◌, ◌+◌, ◌<◌, ◌≤◌, ◌&&◌, ◌==◌, true, Some, length};
ghost use Rattle.parish.specs.Limits.{most_households};
ghost use Rattle.flows.specs.Levels.{level_one};
ghost use Rattle.flow.specs.Searching.{leads_on_in, arc_on_in, IsReady, Reaches, Scans, SearchesOnce};

use super::marked::Marked;
use super::network::Search;
use bisection::{IN_A, IN_B};
use flows::{Arc, Mark};

// What the scan of a level came to: whether a household was reached, and how much was sent. A level may do both.
#[derive(Clone, Copy)]
struct Scanned {
    grew: bool,
    sent: u32,
}

impl Scanned {
    // Nothing was sent, and some household was reached.
    fn goes_on(self) -> bool
        ensures { result ≡ (self.grew && self.sent == 0) }
    {
        self.grew && self.sent == 0
    }
}

// At first the households of A are reached.
// Written by index: of what is written through a zipped `iter_mut` the prover knows nothing.
fn mark_first(lots: &[u8], marks: &mut [Marked])
    requires { length marks.old ≡ length lots.now }
    ensures { marks.new ≡ level_one lots.now }
{
    for (household, lot) in lots.iter().enumerate() {
        marks[household] = if *lot == IN_A {
            Marked::new(Mark {
                level: 1,
                arc: None,
            })
        } else {
            Marked::none()
        };
    }
}

// The mark of a household that an arc from a level reaches: it is at the next level.
fn mark_from(depth: usize, arc: Arc) -> Mark
    requires { depth ≤ most_households }
    ensures { result ≡ record { level = depth + 1; arc = Some arc } }
{
    Mark {
        level: depth + 1,
        arc: Some(arc),
    }
}

impl Search<'_, '_> {
    // Whether an arc leads, with room, from a household of a level to one not reached.
    fn leads_on(&self, depth: usize, arc: Arc) -> bool
        requires there { arc.link < length self.now.network.links.now }
        requires deep { 1 ≤ depth }
        ensures { result ≡ leads_on_in self.now depth arc }
    {
        // The level first: one comparison, which comes out alike at most links of a scan.
        self.marks[self.network.tail(arc)].is_at(depth)
            && self.marks[self.network.head(arc)].is_none()
            && self.room_along(arc) > 0
    }

    // The arc by which a link does so, if one does.
    fn arc_on(&self, depth: usize, link: usize) -> Option<Arc>
        requires there { link < length self.now.network.links.now }
        requires deep { 1 ≤ depth }
        ensures { result ≡ arc_on_in self.now depth link }
    {
        let onward = Arc { link, onward: true };
        let back = Arc {
            link,
            onward: false,
        };
        if self.leads_on(depth, onward) {
            Some(onward)
        } else if self.leads_on(depth, back) {
            Some(back)
        } else {
            None
        }
    }

    // An arc that leads on from a level reaches a household.
    fn reach(&mut self, depth: usize, arc: Arc)
        requires there { arc.link < length self.old.network.links.now }
        requires leads { leads_on_in self.old depth arc ≡ true }
        requires deep { 1 ≤ depth }
        requires shallow { depth ≤ length self.old.network.lots.now }
        ensures { Reaches self.old self.new depth arc }
    {
        let network = self.network;
        let household = network.head(arc);
        self.marks[household] = Marked::new(mark_from(depth, arc));
    }

    // Takes each link in turn, by the number that its arcs name: what it leads to is reached, or sent to where it is set in B.
    fn scan_level(&mut self, depth: usize) -> Scanned
        requires ready { IsReady self.old depth }
        requires shallow { depth ≤ length self.old.network.lots.now }
        ensures { Scans self.old self.new depth result.grew result.sent }
    {
        let network = self.network;
        let mut grew = false;
        let mut sent = 0;
        for link in 0..network.links.len() {
            if let Some(arc) = self.arc_on(depth, link) {
                if network.lots[network.head(arc)] == IN_B {
                    sent += self.send_most(arc);
                } else {
                    self.reach(depth, arc);
                    grew = true;
                }
            }
        }
        Scanned { grew, sent }
    }

    // Scans level after level until something is sent or no household is reached, and answers how much was sent.
    pub(crate) fn search(&mut self) -> u32
        ensures { SearchesOnce self.old self.new result }
    {
        let network = self.network;
        mark_first(network.lots, self.marks);
        for depth in 1..=network.lots.len() {
            let level = self.scan_level(depth);
            if !level.goes_on() {
                return level.sent;
            }
        }
        0
    }
}
