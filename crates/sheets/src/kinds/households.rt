// The kind of the households sheet.
ghost use Rattle.std.specs.Prelude.{◌≡◌};
ghost use Rattle.spelling.specs.Kinds.{households_kind, blamed_in_household};
ghost use Rattle.spelling.specs.Lines.{household_by};

use super::super::fields::{number, pin as pin_of};
use super::super::reader::Reader;
use super::SheetKind;
use faults::{FieldFault, LineFault, ParishFault, Place, Sheet};
use parish::{Household, Parish, Refusal};

#[derive(Drop)]
pub struct Households;

impl SheetKind for Households {
    type Record = Household;

    const NAMES: &'static [u8] = b"weight,lot";

    ghost kind = { households_kind };

    fn sheet() -> Sheet {
        Sheet::Households
    }

    fn names_line() -> &'static [u8] {
        Self::NAMES
    }

    fn record(place: Place, line: &[u8]) -> Result<Household, LineFault> {
        let wrong_count = LineFault::WrongCount(place);
        let mut fields = Reader::new(line);
        let weight = fields.part(b',').ok_or(wrong_count)?;
        let pin = fields.last(b',').ok_or(wrong_count)?;
        household_by(place, weight, pin)
    }

    fn add(parish: &mut Parish, place: Place, record: Household) -> Result<(), ParishFault> {
        parish
            .add_household(record.weight, record.pin)
            .map_err(|refusal| ParishFault {
                place,
                field: blamed_in_household(refusal),
                refusal,
            })?;
        Ok(())
    }
}

// The household that two fields write.
fn household_by(place: Place, weight: &[u8], pin: &[u8]) -> Result<Household, LineFault>
    ensures { result ≡ household_by place weight.now pin.now }
{
    let weight = number(weight).ok_or(FieldFault { place, field: 1 })?;
    let pin = pin_of(pin).ok_or(FieldFault { place, field: 2 })?;
    Ok(Household { weight, pin })
}

// The field of a household's line that a refusal blames, if it blames one: the weight is field 1.
fn blamed_in_household(refusal: Refusal) -> Option<usize>
    ensures { result ≡ blamed_in_household refusal }
{
    match refusal {
        Refusal::OutsideLimits => Some(1),
        _ => None,
    }
}
