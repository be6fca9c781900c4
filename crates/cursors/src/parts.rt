// The bindings of a part of a list.
ghost use Rattle.std.specs.Prelude.{◌≡◌};
ghost use Rattle.cursors.specs.Cursors.{cursor_of, step_of, part_cursor, binding_step};

use crate::{Met, Walk};
use bindings::Part;
use kinds::Refusal;

// Where a binding stands, and the words that are left of its part behind it, or the number of a refusal with zeros, as C takes it: the
// next one begins where it ends.
#[repr(C)]
#[derive(Clone, Copy)]
pub struct Step {
    pub answer: u32,
    pub from: usize,
    pub to: usize,
    pub left: usize,
}

impl From<Result<Met, Refusal>> for Step {
    ghost from_gives = { λ met given. given ≡ step_of met };

    fn from(met: Result<Met, Refusal>) -> Step {
        match met {
            Ok(x) => Step {
                answer: 0,
                from: x.place.start,
                to: x.place.end,
                left: x.left,
            },
            Err(why) => Step {
                answer: u32::from(why),
                from: 0,
                to: 0,
                left: 0,
            },
        }
    }
}

// Where a walk over a part of a whole list begins: its first byte and its words, or the list's refusals.
pub fn start(s: &[u8], p: Part) -> Result<Walk, Refusal>
    ensures { cursor_of result ≡ part_cursor s.now p }
{
    bindings::list_answer(s)?;
    let n = fields::read_u16(s, 0) as usize;
    let v = fields::read_u16(s, 2) as usize;
    match p {
        Part::Strings => Ok(Walk { at: 4, left: v }),
        Part::Security => Ok(Walk {
            at: 4 + 2 * v,
            left: n - v,
        }),
    }
}

impl Walk {
    // The binding that begins the words that are left: 13 where they are not all there; 24 where there is none.
    pub fn binding(self, s: &[u8], p: Part) -> Result<Met, Refusal>
        ensures { step_of result ≡ binding_step s.now p self.at self.left }
    {
        let place = bindings::locate_from(s, p, self.at, self.left)?;
        let words = (place.end - place.start) / 2;
        Ok(Met {
            place: place,
            left: self.left - words,
        })
    }
}
