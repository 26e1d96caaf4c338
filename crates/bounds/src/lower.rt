// What a lower bound is.
ghost use Rattle.parish.specs.View.{view};
ghost use Rattle.bisection.specs.Meanings.{Meaning};
ghost use Rattle.bounds.specs.Bounds.{IsLowerBound};
ghost use Rattle.bounds.specs.Consulting.{Consulted};

use parish::{Parish, Refusal};

// A lower bound means one number and one charge for each link, for every parish, limit on the weight of a lot and list of
// lots. Consulting it answers and fills in these, and does not change it.
pub trait LowerBound {
    ghost meaning: { Self → Meaning };

    // Refuses a list of a wrong length and a lot above 2, and then changes nothing.
    // What is asked stands in parameters, as it is handed over: a parish, a cap, a list of lots, and a list of charges to fill.
    fn consult(
        &self,
        parish: &Parish,
        cap: u32,
        lots: &[u8],
        charges: &mut [u32],
    ) -> Result<u32, Refusal>
        ensures { Consulted (meaning self.now) (view parish.now) «cap» lots.now charges.old charges.new result };

    ghost bounds: { (s : Self) → IsLowerBound (meaning s) };
}
