// The bound that knows nothing.
ghost use Rattle.bisection.specs.Meanings.{bare};
ghost use Rattle.bounds.specs.Charges.{bare_bounds};

use super::lists::check_lists;
use super::lower::LowerBound;
use parish::{Parish, Refusal};

// The number is 0, and so is each charge.
#[derive(Clone, Copy)]
pub struct Bare;

impl LowerBound for Bare {
    ghost meaning = { λ _. bare };

    ghost bounds = { λ _ m limit lots sound fit. bare_bounds m limit lots };

    fn consult(
        &self,
        parish: &Parish,
        cap: u32,
        lots: &[u8],
        charges: &mut [u32],
    ) -> Result<u32, Refusal> {
        check_lists(parish, lots, charges)?;
        charges.fill(0);
        Ok(0)
    }
}
