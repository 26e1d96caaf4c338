// What the lots of a list weigh.
ghost use Rattle.std.specs.Prelude.{◌≡◌};
ghost use Rattle.parish.specs.View.{view};
ghost use Rattle.parish.specs.Edits.{answered};
ghost use Rattle.bisection.specs.Lots.{lots_table};
ghost use Rattle.bisection.specs.Weights.{lot_weight};

use super::lots::{IN_A, IN_B, check_lots};
use parish::{Parish, Refusal};

// The weights of the two lots.
#[derive(Clone, Copy, PartialEq, Eq, Debug)]
pub struct LotWeights {
    pub a: u32,
    pub b: u32,
}

// What the households that a list puts in A weigh, and those that it puts in B.
pub fn lot_weights(parish: &Parish, lots: &[u8]) -> Result<LotWeights, Refusal>
    ensures { result ≡ answered (lots_table (view parish.now) lots.now)
        (record { a = lot_weight 1 (view parish.now).households lots.now; b = lot_weight 2 (view parish.now).households lots.now }) }
{
    check_lots(parish, lots)?;
    let mut a = 0;
    let mut b = 0;
    for (household, lot) in parish.households().iter().zip(lots) {
        match *lot {
            IN_A => a += household.weight,
            IN_B => b += household.weight,
            _ => {}
        }
    }
    Ok(LotWeights { a, b })
}
