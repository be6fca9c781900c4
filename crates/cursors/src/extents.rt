// The extensions of a call header.
ghost use Rattle.std.specs.Prelude.{◌≡◌, Ok};
ghost use Rattle.kinds.specs.Answers.{answer_number};
ghost use Rattle.extensions.specs.Extensions.{extensions_answer};
ghost use Rattle.cursors.specs.Cursors.{extension_cursor_of, extension_step_of, extensions_cursor, this_cursor, extension_step_answer, extension_step};

use extensions::{Extension, Found};
use headers::OrpcThis;
use kinds::Refusal;

// Where a walk over extensions stands: the next one's pointer number, the next one, and how many are left.
#[derive(Clone, Copy)]
pub struct ExtensionWalk {
    pub pointer: usize,
    pub at: usize,
    pub left: usize,
}

// The same of a walk that begins, or the number of a refusal with zeros, as C takes it.
#[repr(C)]
#[derive(Clone, Copy)]
pub struct ExtensionCursor {
    pub answer: u32,
    pub pointer: usize,
    pub at: usize,
    pub left: usize,
}

impl From<Result<ExtensionWalk, Refusal>> for ExtensionCursor {
    ghost from_gives = { λ walk given. given ≡ extension_cursor_of walk };

    fn from(walk: Result<ExtensionWalk, Refusal>) -> ExtensionCursor {
        match walk {
            Ok(x) => ExtensionCursor {
                answer: 0,
                pointer: x.pointer,
                at: x.at,
                left: x.left,
            },
            Err(why) => ExtensionCursor {
                answer: u32::from(why),
                pointer: 0,
                at: 0,
                left: 0,
            },
        }
    }
}

// One extension or its refusal, and where the walk goes on, as C takes it.
#[repr(C)]
#[derive(Clone, Copy)]
pub struct ExtensionStep {
    pub extension: Extension,
    pub pointer: usize,
    pub at: usize,
    pub left: usize,
}

impl From<Result<(Found, ExtensionWalk), Refusal>> for ExtensionStep {
    ghost from_gives = { λ met given. given ≡ extension_step_of met };

    fn from(met: Result<(Found, ExtensionWalk), Refusal>) -> ExtensionStep {
        match met {
            Ok((found, rest)) => ExtensionStep {
                extension: Extension::from(Ok(found)),
                pointer: rest.pointer,
                at: rest.at,
                left: rest.left,
            },
            Err(why) => ExtensionStep {
                extension: Extension::from(Err(why)),
                pointer: 0,
                at: 0,
                left: 0,
            },
        }
    }
}

// Where a walk over the extensions of an accepted header begins.
fn first(s: &[u8], at: usize) -> ExtensionWalk
    requires { extensions_answer s.now at ≡ 0 }
    ensures { extension_cursor_of (Ok result) ≡ extensions_cursor s.now at }
{
    if fields::read_u32(s, at) == 0 {
        return ExtensionWalk {
            pointer: 0,
            at: 0,
            left: 0,
        };
    }
    let n = fields::read_u32(s, at + 4);
    ExtensionWalk {
        pointer: at + 20,
        at: at + 20 + 4 * (extensions::paired(n) as usize),
        left: n as usize,
    }
}

// Where a walk over the extensions of the ORPCTHIS at the front of s begins, or its refusals.
pub fn start_this(s: &[u8]) -> Result<ExtensionWalk, Refusal>
    ensures { extension_cursor_of result ≡ this_cursor s.now }
{
    OrpcThis::judge(s)?;
    Ok(first(s, 28))
}

// The same of the ORPCTHAT at the front of s.
pub fn start_that(s: &[u8]) -> Result<ExtensionWalk, Refusal>
    ensures { extension_cursor_of result ≡ extensions_cursor s.now 4 }
{
    extensions::judge(s, 4)?;
    Ok(first(s, 4))
}

impl ExtensionWalk {
    // Whether an extension stands where the walk does, and its pointer number.
    fn step_answer(self, s: &[u8]) -> Result<(), Refusal>
        ensures { answer_number result ≡ extension_step_answer s.now self.pointer self.at self.left }
    {
        let at = self.at;
        if self.left == 0 {
            return Err(Refusal::NoBinding);
        }
        if !fields::inside(s.len(), self.pointer, 4) {
            return Err(Refusal::Short);
        }
        if !fields::inside(s.len(), at, 24) {
            return Err(Refusal::Short);
        }
        if !fields::inside(
            s.len(),
            at + 24,
            fields::rounded(fields::read_u32(s, at + 20)) as usize,
        ) {
            return Err(Refusal::Short);
        }
        Ok(())
    }

    // The extension where the walk stands, and where it goes on: 24 where none is left; 13 where the extension or its pointer number is
    // not all there.
    pub fn next(self, s: &[u8]) -> Result<(Found, ExtensionWalk), Refusal>
        ensures { extension_step_of result ≡ extension_step s.now self.pointer self.at self.left }
    {
        self.step_answer(s)?;
        let from = self.at + 24;
        let size = fields::read_u32(s, self.at + 20);
        let id = fields::read_guid(s, self.at + 4);
        let found = Found {
            pointer: fields::read_u32(s, self.pointer),
            id: id,
            place: from..from + size as usize,
        };
        let rest = ExtensionWalk {
            pointer: self.pointer + 4,
            at: from + fields::rounded(size) as usize,
            left: self.left - 1,
        };
        Ok((found, rest))
    }
}
