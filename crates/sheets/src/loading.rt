// Reading two sheets into a parish.
ghost use Rattle.std.specs.Prelude.{◌≡◌, ◌+◌, ◌^◌, ◌<◌, length, MatchResult};
ghost use Rattle.parish.specs.Model.{no_model};
ghost use Rattle.parish.specs.View.{view};
ghost use Rattle.spelling.specs.Laws.{Loaded, Faulty, LoadResult};
ghost use Rattle.spelling.specs.Lines.{lines_read, sheet_read, Read};
ghost use Rattle.spelling.specs.Loads.{loaded};
ghost use Rattle.spelling.specs.Pieces.{pieces};

use super::kinds::SheetKind;
use super::kinds::households::Households;
use super::kinds::links::Links;
use super::reader::Reader;
use faults::{LineFault, LoadFault, Place};
use parish::Parish;
use spelling::Counts;

// Reads the value lines that are left, from line 2 on, onto a parish.
fn read_lines<K: SheetKind>(reader: &mut Reader<'_>, parish: &mut Parish) -> Result<(), LoadFault>
    requires { 2 + length reader.old < 2 ^ 64 }
    ensures { Read (lines_read K.SheetKind.kind 2 (view parish.old) (pieces 10 reader.old)) (view parish.new) result }
{
    let mut place = Place {
        sheet: K::sheet(),
        line: 2,
    };
    while let Some(line) = reader.part(b'\n') {
        let record = K::record(place, line)?;
        K::add(parish, place, record)?;
        // Counted beside the parts, since what no byte 10 ends has a line number too.
        place.line += 1;
    }
    if !reader.rest().is_empty() {
        return Err(LineFault::WrongCount(place).into());
    }
    Ok(())
}

// Reads the bytes of a sheet, its names line first, onto a parish.
fn read_sheet<K: SheetKind>(bytes: &[u8], parish: &mut Parish) -> Result<(), LoadFault>
    ensures { Read (sheet_read K.SheetKind.kind (view parish.old) bytes.now) (view parish.new) result }
{
    let mut reader = Reader::new(bytes);
    if reader.part(b'\n') != Some(K::names_line()) {
        let sheet = K::sheet();
        return Err(LineFault::WrongNames(Place { sheet, line: 1 }).into());
    }
    read_lines::<K>(&mut reader, parish)
}

// Reads both sheets into a parish that is emptied first.
// The sheets are two slices, here and where they are handed over with a parish and its spare: each goes on alone to the reading
// of its kind.
fn read_both(parish: &mut Parish, households: &[u8], links: &[u8]) -> Result<(), LoadFault>
    ensures { Read (loaded households.now links.now) (view parish.new) result }
{
    parish.clear();
    read_sheet::<Households>(households, parish)?;
    read_sheet::<Links>(links, parish)
}

// Reads both sheets into a parish that is emptied first, and answers its counts.
fn read_whole(parish: &mut Parish, households: &[u8], links: &[u8]) -> Result<Counts, LoadFault>
    ensures { MatchResult result (λ c. Loaded households.now links.now (view parish.new) c)
        (λ f. Faulty households.now links.now f) }
{
    read_both(parish, households, links)?;
    Ok(Counts {
        households: parish.households().len(),
        links: parish.links().len(),
    })
}

// Replaces a parish by the one that two sheets spell, and answers its counts; on a fault the parish stays as it was. The
// sheets are read into the spare parish, which is left empty.
pub fn read(
    parish: &mut Parish,
    spare: &mut Parish,
    households: &[u8],
    links: &[u8],
) -> Result<Counts, LoadFault>
    ensures result { LoadResult households.now links.now (view parish.old) (view parish.new) result }
    ensures scratch { view spare.new ≡ no_model }
{
    let loaded = read_whole(spare, households, links);
    if loaded.is_ok() {
        std::mem::swap(parish, spare);
    }
    spare.clear();
    loaded
}
