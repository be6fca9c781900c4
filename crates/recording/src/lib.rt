// A recorded shift: calls in order, each with its answer, as bytes (docs/RECORDING.md). Which bytes are refused, and where the sections
// of a record stand.
#![tactic(auto)]

mod forms;

ghost use Rattle.std.specs.Prelude.{◌≡◌, true, ◌≤◌, MatchOption, length, drop};
ghost use Rattle.fields.specs.Fields.{field};
ghost use Rattle.recording.specs.Recording.{whole, mark_fits, form_fits, well_formed, sections_at, short_records, recording_answer};
ghost use Rattle.recording.specs.Places.{section_end, record_ends, RecordAt, Walked};
ghost use Rattle.recording.specs.Whole.{Passes, Found};

use kinds::answer;

// The most records of a recording.
pub const MOST_RECORDS: u64 = 16384;

// Where the five sections of a record end; shown is 0 where the bytes end before one of them does, as `record_ends` promises.
#[derive(Clone, Copy)]
pub struct Ends {
    pub call: usize,
    pub first: usize,
    pub second: usize,
    pub answer: usize,
    pub shown: usize,
}

// Where records end, and whether all are well formed.
#[derive(Clone, Copy)]
struct Passed {
    end: usize,
    fits: bool,
}

// The records from byte 8 that are whole and well formed: how many, and where they end, as C takes it.
#[repr(C)]
#[derive(Clone, Copy)]
pub struct Prefix {
    pub count: u64,
    pub end: usize,
}

// Where the section from at ends; 0 where at is 0, or the bytes end before it does: `record_ends` promises that 0.
fn section_end(s: &[u8], at: usize) -> usize
    ensures { result ≡ section_end s.now at }
{
    if at == 0 {
        return 0;
    }
    if !fields::inside(s.len(), at, 8) {
        return 0;
    }
    let count = fields::read_u64(s, at);
    let left = s.len() - at - 8;
    if (left as u64) < count {
        return 0;
    }
    at + 8 + count as usize
}

// Where the sections of the record from at end.
pub fn record_ends(s: &[u8], at: usize) -> Ends
    ensures { result ≡ record_ends s.now at }
{
    let call = section_end(s, at);
    let first = section_end(s, call);
    let second = section_end(s, first);
    let answer = section_end(s, second);
    let shown = section_end(s, answer);
    Ends {
        call,
        first,
        second,
        answer,
        shown,
    }
}

// The byte at a place; 0 where there is none.
pub fn byte(s: &[u8], at: usize) -> u8
    ensures { result ≡ field s.now at 1 }
{
    if at < s.len() { s[at] } else { 0 }
}

// Whether n bytes are whole elements of w bytes.
fn is_whole(w: usize, n: usize) -> bool
    ensures { result ≡ whole w n }
{
    n.is_multiple_of(w)
}

// Whether what stands at the place of a mark is one.
fn mark_fits(at: usize, s: &[u8]) -> bool
    ensures { result ≡ mark_fits at s.now }
{
    at == 0 || byte(s, at) <= 1
}

// Whether a call's section, two lists of so many bytes and an answer's numbers of so many are of the form of its code.
fn form_fits(s: &[u8], first: usize, second: usize, answer: usize) -> bool
    ensures { result ≡ form_fits s.now first second answer }
{
    let Some(form) = forms::of(byte(s, 0)) else {
        return false;
    };
    s.len() == form.width
        && is_whole(form.first, first)
        && is_whole(form.second, second)
        && mark_fits(form.mark, s)
        && answer == 8 + 8 * form.values
}

// Whether the record from at, which ends there, is well formed.
fn record_fits(s: &[u8], at: usize, e: Ends) -> bool
    requires { RecordAt s.now at e }
    ensures { result ≡ well_formed (sections_at (drop at s.now)) }
{
    let from = at + 8;
    let to = e.call;
    let first = e.first - to - 8;
    let second = e.second - e.first - 8;
    let answer = e.answer - e.second - 8;
    form_fits(&s[from..to], first, second, answer)
}

// Where n records from byte 8 end; none where the bytes end before they do.
fn walk(s: &[u8], n: u64) -> Option<Passed>
    requires { 8 ≤ length s.now }
    ensures { MatchOption result (short_records n (drop 8 s.now) ≡ true) (Walked s.now n) }
{
    let mut at = 8;
    let mut fits = true;
    for _ in 0..n {
        let e = record_ends(s, at);
        if e.shown == 0 {
            return None;
        }
        fits &= record_fits(s, at, e);
        at = e.shown;
    }
    Some(Passed { end: at, fits })
}

// Whether bytes are a recording that can be replayed: 0, or 13; 14; 10.
pub fn recording_answer(s: &[u8]) -> u32
    ensures { result ≡ recording_answer s.now }
{
    if s.len() < 8 {
        return answer::SHORT;
    }
    let n = fields::read_u64(s, 0);
    let Some(walked) = walk(s, n) else {
        return answer::SHORT;
    };
    if !walked.fits {
        return answer::LAYOUT;
    }
    if walked.end != s.len() {
        return answer::LAYOUT;
    }
    if MOST_RECORDS < n {
        return answer::TOO_MANY;
    }
    answer::DONE
}

// The whole records from byte 8, 16,384 at most.
fn pass(s: &[u8]) -> Prefix
    requires { 8 ≤ length s.now }
    ensures { Passes s.now result }
{
    let mut at = 8;
    for n in 0..MOST_RECORDS {
        let e = record_ends(s, at);
        if e.shown == 0 {
            return Prefix { count: n, end: at };
        }
        if !record_fits(s, at, e) {
            return Prefix { count: n, end: at };
        }
        at = e.shown;
    }
    Prefix {
        count: MOST_RECORDS,
        end: at,
    }
}

// How many records from byte 8 are whole and well formed, 16,384 at most, and where they end; whatever the number before them says, and
// whatever stands behind them.
pub fn whole_records(s: &[u8]) -> Prefix
    ensures { Found s.now result }
{
    if s.len() < 8 {
        return Prefix { count: 0, end: 0 };
    }
    pass(s)
}
