// The kind of the links sheet.
ghost use Rattle.std.specs.Prelude.{◌≡◌};
ghost use Rattle.parish.specs.View.{view};
ghost use Rattle.spelling.specs.Kinds.{links_kind, blamed_in_link};
ghost use Rattle.spelling.specs.Lines.{Added, link_by};

use super::super::fields::number;
use super::super::reader::Reader;
use super::SheetKind;
use faults::{FieldFault, LineFault, ParishFault, Place, Sheet};
use parish::{Link, Parish, Refusal};

#[derive(Drop)]
pub struct Links;

impl SheetKind for Links {
    type Record = Link;

    const NAMES: &'static [u8] = b"from,to,strength";

    ghost kind = { links_kind };

    fn sheet() -> Sheet {
        Sheet::Links
    }

    fn names_line() -> &'static [u8] {
        Self::NAMES
    }

    fn record(place: Place, line: &[u8]) -> Result<Link, LineFault> {
        let wrong_count = LineFault::WrongCount(place);
        let mut fields = Reader::new(line);
        let from = fields.part(b',').ok_or(wrong_count)?;
        let to = fields.part(b',').ok_or(wrong_count)?;
        let strength = fields.last(b',').ok_or(wrong_count)?;
        link_by(place, from, to, strength)
    }

    fn add(parish: &mut Parish, place: Place, record: Link) -> Result<(), ParishFault> {
        let households = parish.households().len();
        parish
            .add_link(record.from, record.to, record.strength)
            .map_err(|refusal| ParishFault {
                place,
                field: blamed_in_link(households, record, refusal),
                refusal,
            })?;
        Ok(())
    }
}

// The link that three fields write.
fn link_by(place: Place, from: &[u8], to: &[u8], strength: &[u8]) -> Result<Link, LineFault>
    ensures { result ≡ link_by place from.now to.now strength.now }
{
    let from = number(from).ok_or(FieldFault { place, field: 1 })?;
    let to = number(to).ok_or(FieldFault { place, field: 2 })?;
    let strength = number(strength).ok_or(FieldFault { place, field: 3 })?;
    // By `as`: std has no `From` of 32 bits for a `usize`.
    Ok(Link {
        from: from as usize,
        to: to as usize,
        strength,
    })
}

// The field of a link's line that a refusal blames: the leftmost end that is no household, the second end of a link to
// itself, or the strength.
fn blamed_in_link(households: usize, link: Link, refusal: Refusal) -> Option<usize>
    ensures { result ≡ blamed_in_link households link refusal }
{
    match refusal {
        Refusal::OutsideLimits => Some(3),
        Refusal::NoHousehold if link.from >= households => Some(1),
        Refusal::NoHousehold | Refusal::SelfLink => Some(2),
        _ => None,
    }
}
