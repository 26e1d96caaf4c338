// The parts of a parish.
ghost use Rattle.std.specs.Prelude.{◌≡◌};
ghost use Rattle.parish.specs.Lots.{lot_byte};

// One of the two lots.
#[derive(Clone, Copy, PartialEq, Eq, Debug)]
pub enum Lot {
    A = 1,
    B = 2,
}

// Its byte in a list of lots.
impl From<Lot> for u8 {
    ghost from_gives = { λ lot byte. byte ≡ lot_byte lot };

    fn from(lot: Lot) -> u8 {
        lot as u8
    }
}

// A household, with the lot that it is pinned to, if any.
#[derive(Clone, Copy, PartialEq, Eq, Debug)]
pub struct Household {
    pub weight: u32,
    pub pin: Option<Lot>,
}

// A link between two households, given by their numbers.
#[derive(Clone, Copy, PartialEq, Eq, Debug)]
pub struct Link {
    pub from: usize,
    pub to: usize,
    pub strength: u32,
}
