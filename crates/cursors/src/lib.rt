// A list's bindings, a context's properties and a header's extensions in one pass. A walk is numbers of the caller's: where the next
// one begins, and how much is left. Any numbers are safe; that a walk meets number 0, 1, 2 and so on is said of one from the start.
#![tactic(auto)]

ghost use Rattle.std.specs.Prelude.{◌≡◌};
ghost use Rattle.cursors.specs.Cursors.{cursor_of};

use kinds::Refusal;
use std::ops::Range;

pub mod extents;
pub mod parts;
pub mod properties;

// Where a walk over bindings or properties stands: the first byte, and how much is left.
#[derive(Clone, Copy)]
pub struct Walk {
    pub at: usize,
    pub left: usize,
}

// The same of a walk that begins, or the number of a refusal with zeros, as C takes it.
#[repr(C)]
#[derive(Clone, Copy)]
pub struct Cursor {
    pub answer: u32,
    pub at: usize,
    pub left: usize,
}

impl From<Result<Walk, Refusal>> for Cursor {
    ghost from_gives = { λ walk given. given ≡ cursor_of walk };

    fn from(walk: Result<Walk, Refusal>) -> Cursor {
        match walk {
            Ok(x) => Cursor {
                answer: 0,
                at: x.at,
                left: x.left,
            },
            Err(why) => Cursor {
                answer: u32::from(why),
                at: 0,
                left: 0,
            },
        }
    }
}

// Where a binding or a property's data stands, and how much is left behind it.
#[derive(Drop)]
pub struct Met {
    pub place: Range<usize>,
    pub left: usize,
}

impl Met {
    // Where the walk goes on: the next one begins where this one ends.
    pub fn rest(&self) -> Walk
        ensures { result ≡ record { at = self.now.place.end; left = self.now.left } }
    {
        Walk {
            at: self.place.end,
            left: self.left,
        }
    }
}
