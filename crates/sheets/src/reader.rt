// A reader of bytes: it yields parts of them, and copies none.
ghost use Rattle.std.specs.Prelude.{◌≡◌, ◌<◌, [], ◌∷◌, length, MatchOption};
ghost use Rattle.spelling.specs.Pieces.{pieces, Parted};

use std::marker::Model;

// A sheet's own bytes, and how many of them have been read: parts are handed out of them, and none is copied.
#[derive(Drop)]
pub(crate) struct Reader<'a> {
    bytes: &'a [u8],
    place: usize,
}

// Clauses see what has not been read.
impl<'a> Model for Reader<'a> {
    ghost use Rattle.std.specs.Prelude.{ℕ, ◌≤◌, List, length, drop};

    ghost Value = { List ℕ };

    ghost view = { λ r. drop r.place r.bytes.now };

    ghost invariant = { λ r. r.place ≤ length r.bytes.now };
}

impl<'a> Reader<'a> {
    pub(crate) fn new(bytes: &'a [u8]) -> Reader<'a>
        ensures { result ≡ bytes.now }
    {
        Reader { bytes, place: 0 }
    }

    // What has not been read.
    pub(crate) fn rest(&self) -> &'a [u8]
        ensures { result.now ≡ self.now }
    {
        &self.bytes[self.place..]
    }

    // What has not been read, if no byte `end` stands there.
    pub(crate) fn last(&self, end: u8) -> Option<&'a [u8]>
        ensures { MatchOption result (1 < length (pieces end self.now)) (λ last. pieces end self.now ≡ last.now ∷ []) }
    {
        let rest = self.rest();
        (!rest.contains(&end)).then_some(rest)
    }

    // The part up to the next byte `end`, which is passed over; None, with nothing read, where there is no such byte.
    pub(crate) fn part(&mut self, end: u8) -> Option<&'a [u8]>
        ensures { Parted end self.old self.new result }
    {
        let rest = self.rest();
        let length = rest.iter().position(|byte| *byte == end)?;
        self.place += length + 1;
        Some(&rest[..length])
    }
}
