// Questions that are drawn, the same at every run.
ghost use Rattle.std.specs.Prelude.{◌<◌, ◌≤◌, All};

use bisection::{IN_A, IN_B, UNSET};
use parish::{MOST_STRENGTH, Parish, Refusal};
use std::fmt;

// How large a question is: one household in `share` is set in A, about, and as many in B.
#[derive(Clone, Copy)]
pub(crate) struct Size {
    pub(crate) households: usize,
    pub(crate) links: usize,
    pub(crate) share: usize,
    ghost has_households: { 0 < households },
    ghost has_share: { 0 < share },
}

impl fmt::Display for Size {
    fn fmt<W: fmt::Write>(&self, f: &mut fmt::Formatter<W>) -> fmt::Result {
        write!(
            f,
            "{} households, {} links, one in {} in each lot",
            self.households, self.links, self.share
        )
    }
}

// Numbers drawn one after another.
#[derive(Drop)]
pub(crate) struct Drawn(u64);

impl Drawn {
    pub(crate) fn new() -> Drawn {
        Drawn(7)
    }

    // The next number, below a limit.
    fn below(&mut self, limit: usize) -> usize
        requires { 0 < limit }
        ensures { result < limit }
    {
        let product = self.0.wrapping_mul(6_364_136_223_846_793_005);
        self.0 = product.wrapping_add(1_442_695_040_888_963_407);
        // The upper 31 bits, which fit.
        (self.0 >> 33) as usize % limit
    }

    // Replaces what a parish holds. A link that would join a household to itself joins it to the next.
    pub(crate) fn draw_parish(&mut self, parish: &mut Parish, size: Size) -> Result<(), Refusal> {
        let households = size.households;
        parish.clear();
        for _ in 0..households {
            parish.add_household(1, None)?;
        }
        for _ in 0..size.links {
            let from = self.below(households);
            let other = self.below(households);
            let to = if other == from {
                (from + 1) % households
            } else {
                other
            };
            // By `as`: both are small, and std has no `From` between 32 bits and a `usize`.
            let strength = 1 + self.below(MOST_STRENGTH as usize);
            parish.add_link(from, to, strength as u32)?;
        }
        Ok(())
    }

    // Replaces each lot of a list.
    pub(crate) fn draw_lots(&mut self, lots: &mut [u8], size: Size)
        ensures { All (λ lot. lot ≤ 2) lots.new }
    {
        lots.fill_with(|| self.draw_lot(size));
    }

    fn draw_lot(&mut self, size: Size) -> u8
        ensures { result ≤ 2 }
    {
        match self.below(size.share) {
            0 => IN_A,
            1 => IN_B,
            _ => UNSET,
        }
    }
}
