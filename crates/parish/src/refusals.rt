// Every way in which a call can refuse, with its number. A refusal changes nothing.
ghost use Rattle.std.specs.Prelude.{◌≡◌};
ghost use Rattle.parish.specs.Refusals.{refusal_number};

#[derive(Clone, Copy, PartialEq, Eq, Debug)]
pub enum Refusal {
    // The parish cannot change, nor a search begin, while one is open.
    SearchOpen = 1,
    NoSearch = 2,
    // A list of the wrong length, a lot byte that is not allowed, or too few bytes to write in.
    WrongList = 3,
    AllowanceSpent = 4,
    OutsideLimits = 5,
    NoHousehold = 6,
    SelfLink = 7,
    ParishFull = 8,
    WrongNames = 9,
    // A wrong count of fields, or a line that no byte 10 ends.
    WrongCount = 10,
    // A field that is neither number nor lot letter as wanted.
    WrongField = 11,
}

// Its number.
impl From<Refusal> for u32 {
    ghost from_gives = { λ refusal number. number ≡ refusal_number refusal };

    fn from(refusal: Refusal) -> u32 {
        refusal as u32
    }
}
