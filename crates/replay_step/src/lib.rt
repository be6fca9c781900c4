// A record's answer compared with ours.
#![tactic(auto)]

ghost use Rattle.std.specs.Prelude.{◌≡◌, ◌&&◌};
ghost use Rattle.replay_step.specs.Steps.{numbers_are, plain_step};

// Of the call of a record: whether the recorded answer is ours, and whether it was accepted.
#[derive(Clone, Copy)]
pub struct Step {
    pub agrees: bool,
    pub accepted: bool,
}

// Whether the numbers of a recorded answer are these; a result that the call does not have is 0.
pub fn answers(s: &[u8], number: u64, a: u64, b: u64, c: u64, d: u64) -> bool
    ensures { result ≡ numbers_are s.now number a b c d }
{
    if fields::read_u64(s, 0) != number {
        return false;
    }
    if fields::read_u64(s, 8) != a {
        return false;
    }
    if fields::read_u64(s, 16) != b {
        return false;
    }
    if fields::read_u64(s, 24) != c {
        return false;
    }
    fields::read_u64(s, 32) == d
}

// Whether both hold.
pub fn both(a: bool, b: bool) -> bool
    ensures { result ≡ (a && b) }
{
    if a { b } else { false }
}

// The step of a call that shows nothing, by what it answers.
pub fn step_of(answer: &[u8], shown: &[u8], number: u32, a: u64, b: u64, c: u64, d: u64) -> Step
    ensures { result ≡ plain_step answer.now shown.now number a b c d }
{
    let same = answers(answer, number as u64, a, b, c, d);
    Step {
        agrees: both(same, shown.len() == 0),
        accepted: number == 0,
    }
}
