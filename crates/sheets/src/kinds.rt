// A kind of sheet. One reader serves every kind.
ghost use Rattle.std.specs.Prelude.{◌≡◌};
ghost use Rattle.parish.specs.View.{view};
ghost use Rattle.spelling.specs.Kinds.{Kind};
ghost use Rattle.spelling.specs.Lines.{spelt, Added};

use faults::{LineFault, ParishFault, Place, Sheet};
use parish::Parish;

pub mod households;
pub mod links;

// A kind of sheet: its names line and its record.
pub trait SheetKind {
    type Record;

    const NAMES: &'static [u8];

    ghost kind: { Kind Self.Record };

    // Which of the two sheets it is.
    fn sheet() -> Sheet
        ensures { result ≡ kind.sheet };

    // `NAMES`, as the kind has it: a constant that is a reference has no value in generic code.
    fn names_line() -> &'static [u8]
        ensures { result.now ≡ kind.names };

    // The record that a value line writes.
    fn record(place: Place, line: &[u8]) -> Result<Self::Record, LineFault>
        ensures { result ≡ spelt kind place line.now };

    // Adds a record to a parish.
    fn add(parish: &mut Parish, place: Place, record: Self::Record) -> Result<(), ParishFault>
        ensures { Added kind place (view parish.old) «record» (view parish.new) result };
}
