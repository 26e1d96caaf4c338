// Searches, one after another.
ghost use Rattle.std.specs.Prelude.{◌≡◌};
ghost use Rattle.flow.specs.Searching.{SendsAll};

use super::network::Search;

impl Search<'_, '_> {
    // Searches until nothing is sent, and answers how much was sent in all.
    pub(crate) fn send_all(&mut self) -> u32
        requires unused { self.old.room.now ≡ self.old.network.left.now }
        ensures { SendsAll self.old self.new result }
    {
        let mut total = 0;
        loop {
            let sent = self.search();
            if sent == 0 {
                return total;
            }
            total += sent;
        }
    }
}
