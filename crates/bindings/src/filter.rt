// A binding list with only the string bindings of the requested protocols.
ghost use Rattle.std.specs.Prelude.{◌≡◌, cond, List, [], ◌∷◌, ◌++◌, ℕ, ◌+◌, ◌*◌, ◌<◌, ◌≤◌, length, take, get_or};
ghost use Rattle.lists.specs.Lists.{among};
ghost use Rattle.kinds.specs.Answers.{answer_number};
ghost use Rattle.fields.specs.Fields.{written, stored};
ghost use Rattle.fields.specs.Writers.{wrote};
ghost use Rattle.bindings.specs.Bindings.{words, joined, split, list_answer};
ghost use Rattle.bindings.specs.ListBytes.{word_bytes};
ghost use Rattle.bindings.specs.Filter.{requested, filtered, chosen, words_in, towers_of, is_marked, Marks, write_filtered};

use crate::{Part, Walk, list_answer};
use kinds::Refusal;

fn is_requested(protocols: &[u16], tower: u16) -> bool
    ensures { result ≡ among protocols.now tower }
{
    protocols.contains(&tower)
}

// Marks of the numbers below 65,536: a bit for each.
pub const MARKS: usize = 1024;

// Marks one more number.
fn mark(marks: &mut [u64; MARKS], x: u16)
    ensures { (xs : List ℕ) → Marks marks.old xs → Marks marks.new (x ∷ xs) }
{
    let n = usize::from(x);
    marks[n / 64] |= 1 << (n % 64);
}

fn is_marked(marks: &[u64; MARKS], x: u16) -> bool
    ensures { result ≡ is_marked marks.now x }
{
    let n = usize::from(x);
    (marks[n / 64] >> (n % 64)) % 2 == 1
}

// Marks the n numbers that number gives, where nothing is marked yet.
fn mark_each<F: Fn(usize) -> u16>(marks: &mut [u64; MARKS], n: usize, number: F)
    requires { Marks marks.old [] × ((k : ℕ) → k < n → F.pre number k) }
    ensures { (xs : List ℕ) → length xs ≡ n → ((k x : ℕ) → k < n → F.post number k x → x ≡ get_or xs k 0) → Marks marks.new xs }
{
    for k in 0..n {
        mark(marks, number(k));
    }
}

// Marks the protocols, where nothing is marked yet.
pub fn mark_all(marks: &mut [u64; MARKS], protocols: &[u16])
    requires { Marks marks.old [] }
    ensures { Marks marks.new protocols.now }
{
    mark_each(marks, protocols.len(), |k| protocols[k]);
}

// The same of protocols in bytes, two for each.
pub fn mark_all_bytes(marks: &mut [u64; MARKS], protocols: &[u8])
    requires { Marks marks.old [] }
    ensures { Marks marks.new (words_in protocols.now) }
{
    mark_each(
        marks,
        protocols.len() / 2,
        |k| fields::word(protocols, 2 * k),
    );
}

// Puts the towers of a list's string bindings that are marked at the front of towers, and gives their number: of the protocols they
// alone matter for the list.
pub fn requested_towers(s: &[u8], marks: &[u64; MARKS], towers: &mut [u16]) -> usize
    requires { (list_answer s.now ≡ 0) × (split s.now ≤ length towers.old) }
    ensures { (result ≤ length towers.new)
        × ((protocols : List ℕ) → Marks marks.now protocols
        → take result towers.new ≡ towers_of protocols (words s.now 4 (split s.now))) }
{
    let walk = Walk {
        s,
        part: Part::Strings,
        at: 4,
        left: fields::read_u16(s, 2) as usize,
    };
    let mut n = 0;
    for binding in walk {
        let tower = fields::word(s, binding.start);
        if is_marked(marks, tower) {
            towers[n] = tower;
            n += 1;
        }
    }
    n
}

// How many words the requested bindings have, of the n words from at.
fn requested_words(s: &[u8], at: usize, n: usize, protocols: &[u16]) -> usize
    requires { at + 2 * n ≤ length s.now }
    ensures { (result ≡ length (joined (requested protocols.now (words s.now at n)))) × (result ≤ n) }
{
    let walk = Walk {
        s,
        part: Part::Strings,
        at,
        left: n,
    };
    let mut sum = 0;
    for binding in walk {
        if is_requested(protocols, fields::word(s, binding.start)) {
            sum += (binding.end - binding.start) / 2;
        }
    }
    sum
}

// Writes the requested bindings of the n words from at, in their order.
fn put_requested(s: &[u8], at: usize, n: usize, protocols: &[u16], buf: &mut [u8], to: usize)
    requires { (at + 2 * n ≤ length s.now)
        × (to + 2 * length (joined (requested protocols.now (words s.now at n))) ≤ length buf.old) }
    ensures { buf.new ≡ written buf.old to (word_bytes (joined (requested protocols.now (words s.now at n)))) }
{
    let walk = Walk {
        s,
        part: Part::Strings,
        at,
        left: n,
    };
    let mut next = to;
    for binding in walk {
        if is_requested(protocols, fields::word(s, binding.start)) {
            let bytes = &s[binding.start..binding.end];
            fields::copy(buf, next, bytes);
            next += bytes.len();
        }
    }
}

// The number of bytes of the list with only the requested string bindings.
fn filtered_length(s: &[u8], protocols: &[u16]) -> usize
    requires { list_answer s.now ≡ 0 }
    ensures { result ≡ length (filtered protocols.now s.now) }
{
    let n = fields::read_u16(s, 0) as usize;
    let k = fields::read_u16(s, 2) as usize;
    if n == 0 {
        return s.len();
    }
    6 + 2 * (requested_words(s, 4, k, protocols) + (n - k))
}

// Writes that list at the front of buf: N and S, the requested bindings, and what follows the string bindings.
fn put_filtered(s: &[u8], protocols: &[u16], buf: &mut [u8])
    requires { (list_answer s.now ≡ 0) × (length (filtered protocols.now s.now) ≤ length buf.old) }
    ensures { buf.new ≡ written buf.old 0 (filtered protocols.now s.now) }
{
    let n = fields::read_u16(s, 0) as usize;
    let k = fields::read_u16(s, 2) as usize;
    if n == 0 {
        fields::copy(buf, 0, s);
        return;
    }
    let kept = requested_words(s, 4, k, protocols);
    fields::write_u16(buf, 0, (kept + 1 + (n - k)) as u16);
    fields::write_u16(buf, 2, (kept + 1) as u16);
    put_requested(s, 4, k, protocols, buf, 4);
    let rest = 2 + 2 * k;
    fields::copy(buf, 4 + 2 * kept, &s[rest..]);
}

// Writes the list with only the requested string bindings at the front of buf, and keeps the rest: 0; the list's refusals; 15.
pub fn write_filtered(s: &[u8], protocols: &[u16], buf: &mut [u8]) -> Result<usize, Refusal>
    ensures { (wrote result ≡ write_filtered protocols.now s.now (length buf.old))
        × (buf.new ≡ stored (answer_number result) (filtered protocols.now s.now) buf.old) }
{
    list_answer(s)?;
    let size = filtered_length(s, protocols);
    if buf.len() < size {
        return Err(Refusal::NoRoom);
    }
    put_filtered(s, protocols, buf);
    Ok(size)
}
