// The forms of the calls, by code.
ghost use Rattle.std.specs.Prelude.{◌≡◌, ◌<◌, ◌≤◌, MatchOption};
ghost use Rattle.recording.specs.Recording.{form_of};
ghost use Rattle.recording.specs.Forms.{told};

// What a record of a call has: the bytes of the call's section, its code among them; the bytes of an element of its two lists, 0 where
// it has none; where in the section a mark stands, 0 where there is none; how many numbers it answers besides its own.
#[derive(Clone, Copy)]
pub struct Form {
    pub width: usize,
    pub first: usize,
    pub second: usize,
    pub mark: usize,
    pub values: usize,
}

// A row of the table.
macro_rules! form {
    ($width:expr, $first:expr, $second:expr, $mark:expr, $values:expr) => {
        Form {
            width: $width,
            first: $first,
            second: $second,
            mark: $mark,
            values: $values,
        }
    };
}

// It stands in the program once; a `const` was put on the stack at each call.
static FORMS: [Form; 20] = [
    form!(9, 0, 0, 0, 0),
    form!(25, 1, 0, 0, 0),
    form!(9, 0, 0, 0, 0),
    form!(54, 0, 0, 53, 0),
    form!(45, 0, 0, 0, 0),
    form!(29, 0, 0, 0, 0),
    form!(29, 0, 0, 0, 4),
    form!(5, 0, 0, 0, 0),
    form!(13, 1, 0, 0, 0),
    form!(13, 1, 0, 0, 0),
    form!(9, 0, 0, 0, 0),
    form!(11, 8, 8, 0, 2),
    form!(9, 0, 0, 0, 4),
    form!(17, 0, 0, 0, 3),
    form!(17, 2, 0, 0, 3),
    form!(1, 0, 0, 0, 4),
    form!(9, 0, 0, 0, 1),
    form!(1, 1, 0, 0, 0),
    form!(9, 0, 0, 0, 1),
    form!(1, 1, 0, 0, 0),
];

// The form of a code that there is.
pub fn of(code: u8) -> Option<Form>
    ensures { MatchOption result (20 ≤ code) (λ f. (code < 20) × (f ≡ told (form_of code)) × (f.values ≤ 4)) }
{
    let code = code as usize;
    if code < FORMS.len() {
        Some(FORMS[code])
    } else {
        None
    }
}
