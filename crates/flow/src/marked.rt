// The mark of a household, as a search holds it: in few bytes, since a search reads two at each link.
ghost use Rattle.std.specs.Prelude.{◌≡◌, ◌≤◌, ◌==◌, false, Some, None, is_none, option_and_then};
ghost use Rattle.std.specs.Option.{option_map_or};
ghost use Rattle.flow.specs.Marked.{IsMark};

use flows::{Arc, Mark};
use std::marker::Model;

// The level is 0 where there is no mark, so that one comparison tells whether a household was reached at a level. A link and the
// way along it are an arc at each level above 1.
#[derive(Clone, Copy)]
pub(crate) struct Marked {
    level: u32,
    link: u16,
    onward: bool,
}

// Clauses see a mark, or none.
impl Model for Marked {
    ghost use Rattle.std.specs.Prelude.{Option};
    ghost use Rattle.flows.specs.declared.items.Mark.{Mark};

    ghost Value = { Option Mark };

    ghost use Rattle.flow.specs.Marked.{seen, held, IsBare, held_seen};

    ghost view = { seen };

    ghost invariant = { IsBare };

    ghost inverse = { held };

    ghost inverse_ok = { held_seen };
}

impl Marked {
    pub(crate) fn none() -> Self
        ensures { result ≡ None }
    {
        Marked {
            level: 0,
            link: 0,
            onward: false,
        }
    }

    // By `as`: what a mark is made of is below 2,000.
    pub(crate) fn new(mark: Mark) -> Self
        requires { IsMark mark }
        ensures { result ≡ Some mark }
    {
        let level = mark.level as u32;
        match mark.arc {
            Some(arc) => Marked {
                level,
                link: arc.link as u16,
                onward: arc.onward,
            },
            None => Marked {
                level,
                link: 0,
                onward: false,
            },
        }
    }

    pub(crate) fn is_none(self) -> bool
        ensures { result ≡ is_none self }
    {
        self.level == 0
    }

    // Whether there is a mark, of a level. By `as`: std has no `From` of 32 bits for a `usize`.
    pub(crate) fn is_at(self, level: usize) -> bool
        requires { 1 ≤ level }
        ensures { result ≡ option_map_or (λ m. m.level == level) self false }
    {
        self.level as usize == level
    }

    // The arc of the mark, if there is a mark that has one.
    pub(crate) fn arc(self) -> Option<Arc>
        ensures { result ≡ option_and_then (λ m. m.arc) self }
    {
        (self.level > 1).then_some(Arc {
            link: usize::from(self.link),
            onward: self.onward,
        })
    }
}
