// Lists of lots: a byte for each household.
ghost use Rattle.std.specs.Prelude.{◌≡◌};
ghost use Rattle.parish.specs.View.{view};
ghost use Rattle.parish.specs.Edits.{answered};
ghost use Rattle.bisection.specs.Lots.{allowed, lots_fit, lots_table};

use parish::{Lot, Parish, Refusal};

// Bytes: the form in which lists of lots are handed over. By `as`, since a constant cannot call `from`.
pub const UNSET: u8 = 0;

pub const IN_A: u8 = Lot::A as u8;

pub const IN_B: u8 = Lot::B as u8;

// Whether a list has a byte for each household, and none above 2.
pub fn lots_fit(parish: &Parish, lots: &[u8]) -> bool
    ensures { result ≡ lots_fit (view parish.now) lots.now }
{
    lots.len() == parish.households().len() && bytes_allowed(lots)
}

fn bytes_allowed(lots: &[u8]) -> bool
    ensures { result ≡ allowed lots.now }
{
    lots.iter().all(|lot| *lot <= IN_B)
}

// Refuses a list that does not fit.
pub(crate) fn check_lots(parish: &Parish, lots: &[u8]) -> Result<(), Refusal>
    ensures { result ≡ answered (lots_table (view parish.now) lots.now) tt }
{
    if lots_fit(parish, lots) {
        Ok(())
    } else {
        Err(Refusal::WrongList)
    }
}
