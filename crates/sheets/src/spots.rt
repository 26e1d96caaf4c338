// The part of a sheet that a fault points at.
ghost use Rattle.std.specs.Prelude.{◌≡◌};
ghost use Rattle.spelling.specs.Pieces.{pieces, numbered};
ghost use Rattle.sheets.specs.Spots.{spot_of};

use faults::{LoadFault, Sheet};

// The part of a number, counted from 1, between bytes `end`; an empty part where there is none.
fn numbered_part(bytes: &[u8], end: u8, number: usize) -> &[u8]
    ensures { result.now ≡ numbered number (pieces end bytes.now) }
{
    let Some(before) = number.checked_sub(1) else {
        return &[];
    };
    bytes.split(|byte| *byte == end).nth(before).unwrap_or(&[])
}

// The faulty field, or the line without its byte 10 where no field is to blame, from the sheet that the fault names; an
// empty part for a place that is not there.
pub fn spot<'a>(fault: LoadFault, households: &'a [u8], links: &'a [u8]) -> &'a [u8]
    ensures { result.now ≡ spot_of fault households.now links.now }
{
    let Some(place) = fault.place() else {
        return &[];
    };
    let sheet = match place.sheet {
        Sheet::Households => households,
        Sheet::Links => links,
    };
    let line = numbered_part(sheet, b'\n', place.line);
    match fault.field() {
        0 => line,
        field => numbered_part(line, b',', field),
    }
}
