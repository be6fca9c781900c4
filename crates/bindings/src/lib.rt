// The binding list (DUALSTRINGARRAY) of an object reference or an exporter.
#![tactic(auto)]

pub mod filter;

ghost use Rattle.std.specs.Prelude.{◌≡◌, true, cond, ◌+◌, ◌*◌, ◌-◌, ◌<◌, ◌≤◌, eqb, length, MatchOption};
ghost use Rattle.kinds.specs.Answers.{answer_number};
ghost use Rattle.bindings.specs.Bindings.{words, through_zero, NoZero, FirstZero, head_words, first_binding, bindings_of, is_part, two_parts};
ghost use Rattle.bindings.specs.Bindings.{list_length, front_answer, list_answer, placed, place, binding_at, binding_from, PartOf, Within};

use kinds::Refusal;
use std::ops::Range;

// The two parts of a list.
#[derive(Clone, Copy)]
pub enum Part {
    Strings,
    Security,
}

// Where a binding stands, or the number of its refusal, as C takes it.
#[repr(C)]
#[derive(Clone, Copy)]
pub struct Place {
    pub answer: u32,
    pub from: usize,
    pub to: usize,
}

impl From<Result<Range<usize>, Refusal>> for Place {
    ghost from_gives = { λ found place. place ≡ placed found };

    fn from(found: Result<Range<usize>, Refusal>) -> Place {
        match found {
            Ok(there) => Place {
                answer: 0,
                from: there.start,
                to: there.end,
            },
            Err(why) => Place {
                answer: u32::from(why),
                from: 0,
                to: 0,
            },
        }
    }
}

// Whether none of the w words from at is zero. All are looked at, so that they can be tested side by side.
fn is_text_block(s: &[u8], at: usize, w: usize) -> bool
    requires { at + 2 * w ≤ length s.now }
    ensures { result ≡ true → NoZero s.now at w }
{
    let mut all = true;
    for j in 0..w {
        if fields::word(s, at + 2 * j) == 0 {
            all = false;
        }
    }
    all
}

// How many of the n words from at are in blocks of w words before the first zero word.
fn whole_blocks(s: &[u8], at: usize, n: usize, w: usize) -> usize
    requires { (at + 2 * n ≤ length s.now) × (0 < w) }
    ensures { (result ≤ n) × NoZero s.now at result }
{
    for k in 0..n / w {
        if !is_text_block(s, at + 2 * (w * k), w) {
            return w * k;
        }
    }
    n / w * w
}

// The same by large blocks, then by small ones.
fn far_words(s: &[u8], at: usize, n: usize) -> usize
    requires { at + 2 * n ≤ length s.now }
    ensures { (result ≤ n) × NoZero s.now at result }
{
    let i = whole_blocks(s, at, n, 32);
    i + whole_blocks(s, at + 2 * i, n - i, 8)
}

// Where a text is longer than this, large blocks are tried.
const NEAR: usize = 24;

// How many of the n words from at are in blocks before the first zero word.
pub fn block_words(s: &[u8], at: usize, n: usize) -> usize
    requires { at + 2 * n ≤ length s.now }
    ensures { (result ≤ n) × NoZero s.now at result }
{
    if n < NEAR {
        return whole_blocks(s, at, n, 8);
    }
    let i = whole_blocks(s, at, NEAR, 8);
    if i < NEAR {
        return i;
    }
    i + far_words(s, at + 2 * i, n - i)
}

// The number of the first zero word among the n words from at.
fn zero_word(s: &[u8], at: usize, n: usize) -> Option<usize>
    requires { at + 2 * n ≤ length s.now }
    ensures { MatchOption result (NoZero s.now at n) (FirstZero s.now at n) }
{
    for i in 0..n {
        if fields::word(s, at + 2 * i) == 0 {
            return Some(i);
        }
    }
    None
}

// How many of the n words from at go up to and with the first zero word, by blocks first.
fn long_words(s: &[u8], at: usize, n: usize) -> usize
    requires { at + 2 * n ≤ length s.now }
    ensures { (result ≡ length (through_zero (words s.now at n))) × (result ≤ n) }
{
    let passed = block_words(s, at, n);
    match zero_word(s, at + 2 * passed, n - passed) {
        Some(i) => passed + i + 1,
        None => n,
    }
}

// How many words are tested one by one before the blocks, for which a short text is too short.
const FRONT: usize = 3;

// The same as `long_words`, for texts that may be short.
fn text_words(s: &[u8], at: usize, n: usize) -> usize
    requires { at + 2 * n ≤ length s.now }
    ensures { (result ≡ length (through_zero (words s.now at n))) × (result ≤ n) }
{
    let first = n.min(FRONT);
    match zero_word(s, at, first) {
        Some(i) => i + 1,
        None => first + long_words(s, at + 2 * first, n - first),
    }
}

// How many words a binding has before its address or name.
fn head_words(p: Part) -> usize
    ensures { result ≡ head_words p }
{
    match p {
        Part::Strings => 1,
        Part::Security => 2,
    }
}

// How many words the binding has that begins the n words from at.
fn binding_words(s: &[u8], at: usize, n: usize, p: Part) -> usize
    requires { (at + 2 * n ≤ length s.now) × (0 < n) }
    ensures { (result ≡ length (first_binding p (words s.now at n))) × (0 < result) × (result ≤ n) }
{
    let head = head_words(p);
    if n <= head {
        return n;
    }
    head + text_words(s, at + 2 * head, n - head)
}

// The bindings that begin the `left` words from `at`, up to a zero word where a tower or service word is due.
#[derive(Clone, Copy)]
struct Walk<'a> {
    s: &'a [u8],
    part: Part,
    at: usize,
    left: usize,
    ghost there: { at + 2 * left ≤ length s.now },
}

impl<'a> Iterator for Walk<'a> {
    ghost use Rattle.std.specs.Iterator.{at_most};
    ghost use Rattle.bindings.specs.Walk.{GivesBinding};

    // From the first byte of a binding to its end.
    type Item = Range<usize>;

    ghost next_gives = { GivesBinding };

    ghost remaining = { λ w. at_most w.left };

    // Each step is as long as its binding. Compiled into each walk, whose state then stays in registers.
    #[inline(always)]
    fn next(&mut self) -> Option<Range<usize>> {
        if self.left == 0 || fields::word(self.s, self.at) == 0 {
            return None;
        }
        let from = self.at;
        let m = binding_words(self.s, from, self.left, self.part);
        *self = Walk {
            s: self.s,
            part: self.part,
            at: from + 2 * m,
            left: self.left - m,
        };
        Some(from..self.at)
    }
}

// Whether the n words from at are a part.
fn is_part(s: &[u8], at: usize, n: usize, p: Part) -> bool
    requires { at + 2 * n ≤ length s.now }
    ensures { result ≡ is_part p (words s.now at n) }
{
    let mut walk = Walk {
        s,
        part: p,
        at,
        left: n,
    };
    // A walk: each step is as long as its binding.
    while walk.next().is_some() {}
    walk.left == 1
}

// Whether both parts are parts, where the list's words are all there. Without words, N and S are 0.
fn two_parts(s: &[u8]) -> bool
    requires { list_length s.now ≤ length s.now }
    ensures { result ≡ two_parts s.now }
{
    let n = fields::read_u16(s, 0) as usize;
    let k = fields::read_u16(s, 2) as usize;
    k <= n
        && (n == 0
            || (is_part(s, 4, k, Part::Strings) && is_part(s, 4 + 2 * k, n - k, Part::Security)))
}

// The length in bytes that the list at the front has by its N.
pub fn stated_length(s: &[u8]) -> usize
    ensures { result ≡ list_length s.now }
{
    4 + 2 * (fields::read_u16(s, 0) as usize)
}

// Of the list at the front of the bytes; the bytes after it are not judged.
pub fn front_answer(s: &[u8]) -> Result<(), Refusal>
    ensures { answer_number result ≡ front_answer s.now }
{
    if s.len() < 4 || s.len() < stated_length(s) {
        return Err(Refusal::Short);
    }
    if two_parts(s) {
        Ok(())
    } else {
        Err(Refusal::Layout)
    }
}

// The length in bytes of the list at the front; 0 where it is refused.
pub fn list_length(s: &[u8]) -> usize
    ensures { result ≡ cond (eqb (front_answer s.now) 0) (list_length s.now) 0 }
{
    match front_answer(s) {
        Ok(_) => stated_length(s),
        Err(_) => 0,
    }
}

// Of the bytes as a whole list: bytes left over are a broken layout.
pub fn list_answer(s: &[u8]) -> Result<(), Refusal>
    ensures { answer_number result ≡ list_answer s.now }
{
    front_answer(s)?;
    if stated_length(s) < s.len() {
        Err(Refusal::Layout)
    } else {
        Ok(())
    }
}

// Binding number k of the n words from at.
fn find(s: &[u8], at: usize, n: usize, p: Part, k: usize) -> Result<Range<usize>, Refusal>
    requires { at + 2 * n ≤ length s.now }
    ensures { placed result ≡ place (bindings_of p (words s.now at n)) k at }
{
    let mut skip = k;
    for binding in (Walk {
        s,
        part: p,
        at,
        left: n,
    }) {
        if skip == 0 {
            return Ok(binding);
        }
        skip -= 1;
    }
    Err(Refusal::NoBinding)
}

// The binding that begins the n words from at, which a walk over a part has left: 0, or 13 where they are not all there; 24 where
// there is none. Of a list that was accepted, the next one begins where this one ends.
pub fn locate_from(s: &[u8], p: Part, at: usize, n: usize) -> Result<Range<usize>, Refusal>
    ensures { placed result ≡ binding_from s.now p at n }
{
    if s.len() < at || (s.len() - at) / 2 < n {
        return Err(Refusal::Short);
    }
    find(s, at, n, p, 0)
}

// Where binding number k of a part stands in a whole list: the list's refusals first, then its own.
pub fn locate(s: &[u8], p: Part, k: usize) -> Result<Range<usize>, Refusal>
    ensures { placed result ≡ binding_at s.now p k }
{
    list_answer(s)?;
    let n = fields::read_u16(s, 0) as usize;
    let v = fields::read_u16(s, 2) as usize;
    match p {
        Part::Strings => find(s, 4, v, p, k),
        Part::Security => find(s, 4 + 2 * v, n - v, p, k),
    }
}

// Whether there is a binding number k.
pub fn binding_answer(s: &[u8], p: Part, k: usize) -> Result<(), Refusal>
    ensures { answer_number result ≡ (binding_at s.now p k).answer }
{
    locate(s, p, k)?;
    Ok(())
}

// The bytes of a place; none where it is refused.
pub fn bytes_of(s: &[u8], place: Result<Range<usize>, Refusal>) -> &[u8]
    requires { Within (length s.now) (placed place) }
    ensures { PartOf s.now s.entry.ref_ptr (placed place) result.ref_ptr result.now }
{
    match place {
        Ok(there) => &s[there],
        Err(_) => &s[..0],
    }
}

// Binding number k, from its first word through its zero word; no bytes where it is refused.
pub fn binding(s: &[u8], p: Part, k: usize) -> &[u8]
    ensures { PartOf s.now s.entry.ref_ptr (binding_at s.now p k) result.ref_ptr result.now }
{
    bytes_of(s, locate(s, p, k))
}
