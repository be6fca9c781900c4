// The properties of a context.
ghost use Rattle.std.specs.Prelude.{◌≡◌};
ghost use Rattle.kinds.specs.Answers.{answer_number};
ghost use Rattle.cursors.specs.Cursors.{cursor_of, property_step_of, context_cursor, property_step_answer, property_step};

use crate::{Met, Walk};
use contexts::Property;
use kinds::{Guid, Refusal};

// The fields of a property, where its data stands, and how many properties are left behind it, or the number of a refusal with zeros,
// as C takes it: the next one begins where its data ends.
#[repr(C)]
#[derive(Clone, Copy)]
pub struct PropertyStep {
    pub answer: u32,
    pub property: Property,
    pub from: usize,
    pub to: usize,
    pub left: usize,
}

impl From<Result<(Property, Met), Refusal>> for PropertyStep {
    ghost from_gives = { λ met given. given ≡ property_step_of met };

    fn from(met: Result<(Property, Met), Refusal>) -> PropertyStep {
        match met {
            Ok((property, x)) => PropertyStep {
                answer: 0,
                property: property,
                from: x.place.start,
                to: x.place.end,
                left: x.left,
            },
            Err(why) => PropertyStep {
                answer: u32::from(why),
                property: Property {
                    clsid: Guid::NIL,
                    policy: Guid::NIL,
                    flags: 0,
                },
                from: 0,
                to: 0,
                left: 0,
            },
        }
    }
}

// Where a walk over the properties of a context begins, and their number, or the context's refusals.
pub fn start(s: &[u8]) -> Result<Walk, Refusal>
    ensures { cursor_of result ≡ context_cursor s.now }
{
    contexts::context_answer(s)?;
    Ok(Walk {
        at: 48,
        left: fields::read_u32(s, 40) as usize,
    })
}

// Whether a property stands from at, of so many that are left.
fn step_answer(s: &[u8], at: usize, left: usize) -> Result<(), Refusal>
    ensures { answer_number result ≡ property_step_answer s.now at left }
{
    if left == 0 {
        return Err(Refusal::NoBinding);
    }
    if !fields::inside(s.len(), at, 40) {
        return Err(Refusal::Short);
    }
    if !fields::inside(s.len(), at + 40, fields::read_u32(s, at + 36) as usize) {
        return Err(Refusal::Short);
    }
    Ok(())
}

impl Walk {
    // The property that begins what is left: 24 where none is; 13 where it is not all there.
    pub fn property(self, s: &[u8]) -> Result<(Property, Met), Refusal>
        ensures { property_step_of result ≡ property_step s.now self.at self.left }
    {
        let at = self.at;
        step_answer(s, at, self.left)?;
        let clsid = fields::read_guid(s, at);
        let policy = fields::read_guid(s, at + 16);
        let property = Property {
            clsid: clsid,
            policy: policy,
            flags: fields::read_u32(s, at + 32),
        };
        let from = at + 40;
        let met = Met {
            place: from..from + fields::read_u32(s, at + 36) as usize,
            left: self.left - 1,
        };
        Ok((property, met))
    }
}
