// The bound that counts what is cut already.
ghost use Rattle.std.specs.Prelude.{◌≡◌, ◌<◌, length};
ghost use Rattle.bisection.specs.Meanings.{decided, decided_charge};
ghost use Rattle.bounds.specs.Charges.{decided_bounds};

use super::lists::check_lists;
use super::lower::LowerBound;
use bisection::UNSET;
use parish::{Link, Parish, Refusal};

// Charges each link whose ends are set in different lots its whole strength; the number is the sum.
#[derive(Clone, Copy)]
pub struct Decided;

fn charge_of(lots: &[u8], link: &Link) -> u32
    requires from { link.now.from < length lots.now }
    requires to { link.now.to < length lots.now }
    ensures { result ≡ decided_charge lots.now link.now }
{
    let from = lots[link.from];
    let to = lots[link.to];
    if from > UNSET && to > UNSET && from != to {
        link.strength
    } else {
        0
    }
}

impl LowerBound for Decided {
    ghost meaning = { λ _. decided };

    ghost bounds = { λ _ m limit lots sound fit. decided_bounds m limit lots };

    fn consult(
        &self,
        parish: &Parish,
        cap: u32,
        lots: &[u8],
        charges: &mut [u32],
    ) -> Result<u32, Refusal> {
        check_lists(parish, lots, charges)?;
        let links = parish.links();
        let mut sum = 0;
        // Written by index: of what is written through a zipped `iter_mut` the prover knows nothing.
        for (k, link) in links.iter().enumerate() {
            let charge = charge_of(lots, link);
            charges[k] = charge;
            sum += charge;
        }
        Ok(sum)
    }
}
