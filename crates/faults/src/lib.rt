// What can be wrong with a load, and where. A field's fault stands inside a line's fault, and that inside the load's:
// an upper layer passes on the fault of a lower one whole.
#![tactic(auto)]

ghost use Rattle.std.specs.Prelude.{◌≡◌};
ghost use Rattle.faults.specs.declared.LineFault.TheVariants.{Field};
ghost use Rattle.faults.specs.declared.LoadFault.TheVariants.{Line, Parish};
ghost use Rattle.faults.specs.Faults.{sheet_number, line_fault_place, fault_refusal, fault_place, fault_sheet, fault_line, fault_field, fault_layer};

use parish::Refusal;

// One of the two sheets, with its number.
#[derive(Clone, Copy, PartialEq, Eq, Debug)]
pub enum Sheet {
    Households = 1,
    Links = 2,
}

// A line of a sheet. The names line is line 1.
#[derive(Clone, Copy, PartialEq, Eq, Debug)]
pub struct Place {
    pub sheet: Sheet,
    pub line: usize,
}

// A field that is neither number nor lot letter as wanted, counted from 1.
#[derive(Clone, Copy, PartialEq, Eq, Debug)]
pub struct FieldFault {
    pub place: Place,
    pub field: usize,
}

// A line that is not made up as its sheet's kind wants it.
#[derive(Clone, Copy, PartialEq, Eq, Debug)]
pub enum LineFault {
    WrongNames(Place),
    WrongCount(Place),
    Field(FieldFault),
}

// A record that the parish refuses, with the field to blame, counted from 1, if one is.
#[derive(Clone, Copy, PartialEq, Eq, Debug)]
pub struct ParishFault {
    pub place: Place,
    pub field: Option<usize>,
    pub refusal: Refusal,
}

#[derive(Clone, Copy, PartialEq, Eq, Debug)]
pub enum LoadFault {
    // The call itself is refused, before either sheet is read.
    Call(Refusal),
    Line(LineFault),
    Parish(ParishFault),
}

// The layer that found a fault.
#[derive(Clone, Copy, PartialEq, Eq, Debug)]
pub enum Layer {
    Field,
    Line,
    Parish,
}

impl From<Sheet> for u32 {
    ghost from_gives = { λ sheet r. r ≡ sheet_number sheet };

    fn from(sheet: Sheet) -> u32 {
        sheet as u32
    }
}

impl From<FieldFault> for LineFault {
    ghost from_gives = { λ e r. r ≡ Field e };

    fn from(field: FieldFault) -> LineFault {
        LineFault::Field(field)
    }
}

impl From<LineFault> for LoadFault {
    ghost from_gives = { λ e r. r ≡ Line e };

    fn from(line: LineFault) -> LoadFault {
        LoadFault::Line(line)
    }
}

impl From<ParishFault> for LoadFault {
    ghost from_gives = { λ e r. r ≡ Parish e };

    fn from(refused: ParishFault) -> LoadFault {
        LoadFault::Parish(refused)
    }
}

impl LineFault {
    fn place(self) -> Place
        ensures { result ≡ line_fault_place self }
    {
        match self {
            LineFault::WrongNames(place) | LineFault::WrongCount(place) => place,
            LineFault::Field(fault) => fault.place,
        }
    }
}

impl LoadFault {
    pub fn refusal(self) -> Refusal
        ensures { result ≡ fault_refusal self }
    {
        match self {
            LoadFault::Call(refusal) => refusal,
            LoadFault::Line(LineFault::WrongNames(_)) => Refusal::WrongNames,
            LoadFault::Line(LineFault::WrongCount(_)) => Refusal::WrongCount,
            LoadFault::Line(LineFault::Field(_)) => Refusal::WrongField,
            LoadFault::Parish(fault) => fault.refusal,
        }
    }

    // Where it is, unless the call itself is refused.
    pub fn place(self) -> Option<Place>
        ensures { result ≡ fault_place self }
    {
        match self {
            LoadFault::Call(_) => None,
            LoadFault::Line(fault) => Some(fault.place()),
            LoadFault::Parish(fault) => Some(fault.place),
        }
    }

    // The number of its sheet, or 0. Here and below a number with 0 for none, as reports write it.
    pub fn sheet(self) -> u32
        ensures { result ≡ fault_sheet self }
    {
        self.place().map_or(0, |place| u32::from(place.sheet))
    }

    // Its line, counted from 1, or 0.
    pub fn line(self) -> usize
        ensures { result ≡ fault_line self }
    {
        self.place().map_or(0, |place| place.line)
    }

    // Its field, counted from 1, or 0.
    pub fn field(self) -> usize
        ensures { result ≡ fault_field self }
    {
        match self {
            LoadFault::Line(LineFault::Field(fault)) => fault.field,
            LoadFault::Parish(fault) => fault.field.unwrap_or(0),
            _ => 0,
        }
    }

    pub fn layer(self) -> Layer
        ensures { result ≡ fault_layer self }
    {
        match self {
            LoadFault::Line(LineFault::Field(_)) => Layer::Field,
            LoadFault::Line(_) => Layer::Line,
            _ => Layer::Parish,
        }
    }
}
