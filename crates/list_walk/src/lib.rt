// The walk over the words of a binding list whose bytes come in pieces.
#![tactic(auto)]

ghost use Rattle.std.specs.Prelude.{◌≡◌, true, ℕ, ◌+◌, ◌*◌, ◌-◌, ◌/◌, ◌<◌, ◌≤◌, min, length};
ghost use Rattle.bindings.specs.Bindings.{words};
ghost use Rattle.list_walk.specs.Walk.{word_step, list_step, walk_list, TextPassed, next_mode, next_seen, mode_after};

use bindings::Part;

// Where the walk over a part stands, as the state of a stream keeps it: a tower or service word is due; the word after a service word
// is due; in an address or a name; behind the part's zero word; broken.
const DUE: u8 = 0;

const FREE: u8 = 1;

const TEXT: u8 = 2;

const CLOSED: u8 = 3;

const BROKEN: u8 = 4;

// Bytes are counted up to here, past the end of every list.
const LIMIT: u32 = 131155;

// One word more of a part.
#[tactic(auto, unfolding(crate::specs::Walk::word_step))]
fn word_step(p: Part, mode: u8, word: u32) -> u8
    ensures { result ≡ word_step p mode word }
{
    match (mode, p) {
        (DUE, _) if word == 0 => CLOSED,
        (DUE, Part::Strings) => TEXT,
        (DUE, Part::Security) => FREE,
        (FREE, _) => TEXT,
        (TEXT, _) if word == 0 => DUE,
        (TEXT, _) => TEXT,
        _ => BROKEN,
    }
}

// Word k of a list whose security part begins at word v.
#[tactic(auto, unfolding(crate::specs::Walk::list_step))]
fn list_step(v: u16, k: u32, mode: u8, word: u32) -> u8
    ensures { result ≡ list_step v k mode word }
{
    if k < v as u32 {
        return word_step(Part::Strings, mode, word);
    }
    if k != v as u32 {
        return word_step(Part::Security, mode, word);
    }
    let entered = if mode == CLOSED { DUE } else { BROKEN };
    word_step(Part::Security, entered, word)
}

// The walk after byte number j of a list with N = n and S = v.
#[tactic(auto, unfolding(crate::specs::Walk::next_mode))]
pub fn next_mode(n: u16, v: u16, j: u32, low: u8, mode: u8, b: u8) -> u8
    ensures { result ≡ next_mode n v j low mode b }
{
    if j < 5 || j % 2 == 0 {
        return mode;
    }
    let k = (j - 5) / 2;
    if u32::from(n) <= k {
        return mode;
    }
    list_step(v, k, mode, u32::from(u16::from_le_bytes([low, b])))
}

pub fn next_seen(seen: u32) -> u32
    ensures { result ≡ next_seen seen }
{
    if seen < LIMIT { seen + 1 } else { seen }
}

pub fn least(a: usize, b: usize) -> usize
    ensures { result ≡ min a b }
{
    a.min(b)
}

// How many of the w words from word k stand before the security part, which begins at word v, or in it.
fn part_words(v: u16, k: usize, w: usize) -> usize
    ensures { (result ≤ w) × ((j : ℕ) → j < result → k + j ≡ v → ⊥) }
{
    let v = usize::from(v);
    if v < k { w } else { w.min(v - k) }
}

// How many of the w words from word k, at byte at, are passed in blocks of a text; not all of them. Two words are tested by themselves
// first: a short text has no block.
fn text_run(v: u16, k: usize, mode: u8, s: &[u8], at: usize, w: usize) -> usize
    requires { (0 < w) × (at + 2 * w ≤ length s.now) × (k + w ≤ 65535) }
    ensures { TextPassed v k mode s.now at w result }
{
    if mode != TEXT || w < 9 || fields::word(s, at) == 0 || fields::word(s, at + 2) == 0 {
        return 0;
    }
    bindings::block_words(s, at, part_words(v, k, w - 1))
}

// The walk over w words from word k, at byte at.
fn walk_words(v: u16, k: usize, mode: u8, s: &[u8], at: usize, w: usize) -> u8
    requires { (at + 2 * w ≤ length s.now) × (k + w ≤ 65535) }
    ensures { result ≡ walk_list v k mode (words s.now at w) }
{
    let mut m = mode;
    let mut i = 0;
    // A walk: each step is as long as the text that it passes.
    while i < w {
        let p = i + text_run(v, k + i, m, s, at + 2 * i, w - i);
        m = list_step(v, (k + p) as u32, m, fields::word(s, at + 2 * p) as u32);
        i = p + 1;
    }
    m
}

// The walk over the bytes from at, where word k of a list of n words begins.
fn even_after(n: u16, v: u16, k: usize, mode: u8, s: &[u8], at: usize) -> u8
    requires { at ≤ length s.now }
    ensures { result ≡ walk_list v k mode (words s.now at (min (n - k) ((length s.now - at) / 2))) }
{
    if n as usize <= k {
        return mode;
    }
    let w = (n as usize - k).min((s.len() - at) / 2);
    walk_words(v, k, mode, s, at, w)
}

// The walk over the words of a list that begins at byte start, byte by byte.
fn mode_each(n: u16, v: u16, start: u32, seen: u32, low: u8, mode: u8, bytes: &[u8]) -> u8
    requires { start ≤ seen }
    ensures { result ≡ mode_after n v start seen low mode bytes.now }
{
    let mut at = seen;
    let mut last = low;
    let mut m = mode;
    for &byte in bytes {
        m = next_mode(n, v, at - start, last, m, byte);
        at = next_seen(at);
        last = byte;
    }
    m
}

// Whether m bytes from byte number seen on are several, all counted, and behind N and S of a list that begins at byte start.
fn is_counted(start: u32, seen: u32, m: usize) -> bool
    requires { start ≤ seen }
    ensures { result ≡ true → (2 ≤ m) × (start + 4 ≤ seen) × (seen + m ≤ 131155) }
{
    2 <= m && 4 <= seen - start && seen < LIMIT && m <= (LIMIT - seen) as usize
}

// The walk over the words of a list that begins at byte start: by words, but for a first byte that ends one.
pub fn mode_after(n: u16, v: u16, start: u32, seen: u32, low: u8, mode: u8, bytes: &[u8]) -> u8
    requires { start ≤ seen }
    ensures { result ≡ mode_after n v start seen low mode bytes.now }
{
    if !is_counted(start, seen, bytes.len()) {
        return mode_each(n, v, start, seen, low, mode, bytes);
    }
    let j = seen - start;
    if j % 2 == 0 {
        return even_after(n, v, ((j - 4) / 2) as usize, mode, bytes, 0);
    }
    let m = next_mode(n, v, j, low, mode, bytes[0]);
    even_after(n, v, ((j - 3) / 2) as usize, m, bytes, 1)
}
