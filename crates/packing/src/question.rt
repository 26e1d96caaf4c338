// A question to the layer.
ghost use Rattle.std.specs.Prelude.{◌≡◌, ◌<◌, ◌≤◌, length, nat_eq};
ghost use Rattle.parish.specs.Limits.{most_households, most_links, Weights, Joined};

use parish::{Household, Link, Lot};

// The households and links of a parish, a lot or none for each household, a charge below for each link, and the home lot.
#[derive(Clone, Copy)]
pub(crate) struct Question<'a> {
    pub(crate) households: &'a [Household],
    pub(crate) links: &'a [Link],

    // A byte for each household: the form in which lists of lots are handed over.
    pub(crate) lots: &'a [u8],

    // A number for each link: the form in which lists of charges are handed over.
    pub(crate) charges: &'a [u32],
    pub(crate) home: Lot,

    ghost few: { length households.now ≤ most_households },
    ghost weights: { Weights households.now },
    ghost short: { length links.now ≤ most_links },
    ghost joined: { Joined (length households.now) links.now },
    ghost lots_long: { length lots.now ≡ length households.now },
    ghost charges_long: { length charges.now ≡ length links.now },
}

// Links are named by number: a type that bounds the number would have to name the question.
impl Question<'_> {
    ghost use Rattle.parish.specs.Lots.{lot_byte};
    ghost use Rattle.forest.specs.Grounds.{leads, other};
    ghost use Rattle.forest.specs.Forests.{root_link};
    ghost use Rattle.packing.specs.Grounded.{ground_of, below};

    // The byte of the lot that is not the home lot.
    pub(crate) fn away(&self) -> u8
        ensures { result ≡ lot_byte (other self.now.home) }
    {
        match self.home {
            Lot::A => u8::from(Lot::B),
            Lot::B => u8::from(Lot::A),
        }
    }

    // Whether at least 1 is left of a link.
    pub(crate) fn is_usable(&self, link: usize) -> bool
        requires { link < (ground_of self.now).links }
        ensures { result ≡ (ground_of self.now).usable link }
    {
        self.charges[link] < self.links[link].strength
    }

    // Whether a usable link leads from the home lot to a household.
    fn leads_home(&self, link: usize, household: usize) -> bool
        requires { link < (ground_of self.now).links }
        ensures { result ≡ leads (ground_of self.now) (ground_of self.now).home (λ u. nat_eq u household) link }
    {
        let home = u8::from(self.home);
        let Link { from, to, .. } = self.links[link];
        self.is_usable(link)
            && (self.lots[from] == home && to == household
                || self.lots[to] == home && from == household)
    }

    // The lowest usable link from the home lot to a household, if there is one.
    pub(crate) fn root_link(&self, household: usize) -> Option<usize>
        ensures { result ≡ below (ground_of self.now).links (root_link (ground_of self.now) household) }
    {
        (0..self.links.len()).find(|&link| self.leads_home(link, household))
    }
}
