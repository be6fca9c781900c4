// The extensions of a call header (ORPC_EXTENT_ARRAY), by the place of the header's pointer to them.
#![tactic(auto)]

ghost use Rattle.std.specs.Prelude.{◌≡◌, ◌+◌, ◌*◌, ◌<◌, ◌≤◌, length, Ok};
ghost use Rattle.kinds.specs.Answers.{answer_number};
ghost use Rattle.bindings.specs.Bindings.{PartOf, Within};
ghost use Rattle.extensions.specs.Extensions.{pairs, padding_answer, pointers_answer, extent_answer, next_at, extents_answer, start_of, count_at, extents_start, counted_answer, pointed_answer, front_answer};
ghost use Rattle.extensions.specs.Extensions.{array_answer, extensions_answer, array_end, walked_to, reached, walk, read_extensions, extension_at, extension_from, extension_of, place_of};

use kinds::{Guid, Refusal};
use std::ops::Range;

// What a header says of its extensions: its pointer to the array, the array's pointer, and their number.
#[repr(C)]
#[derive(Clone, Copy)]
pub struct Extensions {
    pub pointer: u32,
    pub array: u32,
    pub count: u32,
}

// The first byte after what was judged, or the number of its refusal, as C takes it.
#[repr(C)]
#[derive(Clone, Copy)]
pub struct Walked {
    pub answer: u32,
    pub to: usize,
}

impl From<Result<usize, Refusal>> for Walked {
    ghost from_gives = { λ end given. given ≡ reached end };

    fn from(end: Result<usize, Refusal>) -> Walked {
        match end {
            Ok(to) => Walked { answer: 0, to: to },
            Err(why) => Walked {
                answer: u32::from(why),
                to: 0,
            },
        }
    }
}

// One extension: its pointer number, its id, and where its data stands without padding.
#[derive(Drop)]
pub struct Found {
    pub pointer: u32,
    pub id: Guid,
    pub place: Range<usize>,
}

// The same, or the number of its refusal with zeros, as C takes it.
#[repr(C)]
#[derive(Clone, Copy)]
pub struct Extension {
    pub answer: u32,
    pub pointer: u32,
    pub id: Guid,
    pub from: usize,
    pub to: usize,
}

impl From<Result<Found, Refusal>> for Extension {
    ghost from_gives = { λ found given. given ≡ extension_of found };

    fn from(found: Result<Found, Refusal>) -> Extension {
        match found {
            Ok(x) => Extension {
                answer: 0,
                pointer: x.pointer,
                id: x.id,
                from: x.place.start,
                to: x.place.end,
            },
            Err(why) => Extension {
                answer: u32::from(why),
                pointer: 0,
                id: Guid::NIL,
                from: 0,
                to: 0,
            },
        }
    }
}

fn padding_answer(s: &[u8], at: usize, n: usize) -> Result<(), Refusal>
    ensures { answer_number result ≡ padding_answer s.now at n }
{
    if !fields::inside(s.len(), at, n) {
        return Err(Refusal::Short);
    }
    if fields::is_zero(s, at, n) {
        Ok(())
    } else {
        Err(Refusal::Layout)
    }
}

// Whether n pointers stand from at, none of them null.
fn pointers_answer(s: &[u8], at: usize, n: usize) -> Result<(), Refusal>
    ensures { answer_number result ≡ pointers_answer s.now at n }
{
    // The place is moved on, since at + 4 * k is known to fit only once the pointers before it are there.
    let mut i = at;
    for _ in 0..n {
        if !fields::inside(s.len(), i, 4) {
            return Err(Refusal::Short);
        }
        if fields::read_u32(s, i) == 0 {
            return Err(Refusal::Layout);
        }
        i += 4;
    }
    Ok(())
}

// Whether an extension stands from at.
fn extent_answer(s: &[u8], at: usize) -> Result<(), Refusal>
    ensures { answer_number result ≡ extent_answer s.now at }
{
    if !fields::inside(s.len(), at, 24) {
        return Err(Refusal::Short);
    }
    let size = fields::read_u32(s, at + 20);
    let whole = fields::rounded(size);
    if fields::read_u32(s, at) as u64 != whole {
        return Err(Refusal::Layout);
    }
    if !fields::inside(s.len(), at + 24, size as usize) {
        return Err(Refusal::Short);
    }
    padding_answer(s, at + 24 + size as usize, (whole - size as u64) as usize)
}

// Where the extension from at ends.
fn next(s: &[u8], at: usize) -> usize
    requires { extent_answer s.now at ≡ 0 }
    ensures { result ≡ next_at s.now at }
{
    at + 24 + fields::rounded(fields::read_u32(s, at + 20)) as usize
}

// Whether n extensions stand from at, and where they end.
fn extents(s: &[u8], at: usize, n: usize) -> Result<usize, Refusal>
    ensures { reached result ≡ walked_to (extents_answer s.now at n) (start_of s.now at n) }
{
    let mut i = at;
    for _ in 0..n {
        extent_answer(s, i)?;
        i = next(s, i);
    }
    Ok(i)
}

// A count of pointers, rounded up to a multiple of 2.
pub fn paired(n: u32) -> u64
    ensures { result ≡ pairs n }
{
    (n as u64 + 1) / 2 * 2
}

// Of the array's own fields, which the header's pointer at at points to.
fn front_answer(s: &[u8], at: usize) -> Result<(), Refusal>
    ensures { answer_number result ≡ front_answer s.now at }
{
    if !fields::inside(s.len(), at, 8) {
        return Err(Refusal::Short);
    }
    let n = fields::read_u32(s, at + 4);
    if 32 < n {
        return Err(Refusal::Layout);
    }
    if !fields::inside(s.len(), at, 12) {
        return Err(Refusal::Short);
    }
    if fields::read_u32(s, at + 8) != 0 {
        return Err(Refusal::Layout);
    }
    if !fields::inside(s.len(), at, 16) {
        return Err(Refusal::Short);
    }
    if fields::read_u32(s, at + 12) != 0 {
        return Ok(());
    }
    if n == 0 { Ok(()) } else { Err(Refusal::Layout) }
}

// Of the rounded count at at and the pointers of n extensions.
fn counted_answer(s: &[u8], at: usize, n: u32) -> Result<(), Refusal>
    ensures { answer_number result ≡ counted_answer s.now at n }
{
    if !fields::inside(s.len(), at, 4) {
        return Err(Refusal::Short);
    }
    let all = paired(n);
    if fields::read_u32(s, at) as u64 != all {
        return Err(Refusal::Layout);
    }
    pointers_answer(s, at + 4, n as usize)?;
    padding_answer(
        s,
        at + 4 + 4 * (n as usize),
        4 * ((all - n as u64) as usize),
    )
}

// What the array's pointer points to.
fn pointed(s: &[u8], at: usize) -> Result<usize, Refusal>
    requires { at + 16 ≤ length s.now }
    ensures { reached result ≡ walked_to (pointed_answer s.now at) (start_of s.now (extents_start s.now at) (count_at s.now at)) }
{
    let n = fields::read_u32(s, at + 4);
    counted_answer(s, at + 16, n)?;
    extents(s, at + 20 + 4 * (paired(n) as usize), n as usize)
}

// The array that the header's pointer at at points to.
fn array(s: &[u8], at: usize) -> Result<usize, Refusal>
    ensures { reached result ≡ walked_to (array_answer s.now at) (array_end s.now at) }
{
    front_answer(s, at)?;
    if fields::read_u32(s, at + 12) == 0 {
        return Ok(at + 16);
    }
    pointed(s, at)
}

// Judges the extensions of the header whose pointer stands at at: 0 and the header's length, or 13 or 14 with 0.
pub fn judge(s: &[u8], at: usize) -> Result<usize, Refusal>
    ensures { reached result ≡ walk s.now at }
{
    if !fields::inside(s.len(), at, 4) {
        return Err(Refusal::Short);
    }
    if fields::read_u32(s, at) == 0 {
        return Ok(at + 4);
    }
    array(s, at)
}

// What an accepted header says of its extensions.
pub fn stated(s: &[u8], at: usize) -> Extensions
    requires { extensions_answer s.now at ≡ 0 }
    ensures { result ≡ read_extensions s.now at }
{
    let pointer = fields::read_u32(s, at);
    if pointer == 0 {
        return Extensions {
            pointer: 0,
            array: 0,
            count: 0,
        };
    }
    Extensions {
        pointer,
        array: fields::read_u32(s, at + 12),
        count: fields::read_u32(s, at + 4),
    }
}

// Where extension k of n begins that stand from at.
fn start(s: &[u8], at: usize, n: usize, k: usize) -> usize
    requires { (extents_answer s.now at n ≡ 0) × (k < n) }
    ensures { (result ≡ start_of s.now at k) × (extent_answer s.now result ≡ 0) }
{
    let mut i = at;
    for _ in 0..k {
        i = next(s, i);
    }
    i
}

impl Found {
    // Extension k, where the array is accepted and has it.
    fn read(s: &[u8], at: usize, n: u32, k: usize) -> Found
        requires { (at + 20 + 4 * pairs n ≤ length s.now) × (extents_answer s.now (at + 20 + 4 * pairs n) n ≡ 0) × (k < n) × (n ≤ 32) }
        ensures { extension_of (Ok result) ≡ extension_from s.now (at + 20) (at + 20 + 4 * pairs n) k }
    {
        let from = start(s, at + 20 + 4 * (paired(n) as usize), n as usize, k);
        let data = from + 24;
        Found {
            pointer: fields::read_u32(s, at + 20 + 4 * k),
            id: fields::read_guid(s, from + 4),
            place: data..data + fields::read_u32(s, from + 20) as usize,
        }
    }

    // Extension k of an accepted header; 24 where there is none.
    pub fn numbered(s: &[u8], at: usize, k: usize) -> Result<Found, Refusal>
        requires { extensions_answer s.now at ≡ 0 }
        ensures { extension_of result ≡ extension_at s.now at k }
    {
        if fields::read_u32(s, at) == 0 {
            return Err(Refusal::NoBinding);
        }
        let n = fields::read_u32(s, at + 4);
        if n as usize <= k {
            return Err(Refusal::NoBinding);
        }
        Ok(Found::read(s, at, n, k))
    }

    // Extension k of the header whose pointer stands at at: the header's refusals first, then 24.
    pub fn locate(s: &[u8], at: usize, k: usize) -> Result<Found, Refusal>
        ensures { extension_of result ≡ extension_at s.now at k }
    {
        judge(s, at)?;
        Found::numbered(s, at, k)
    }
}

// The data of an extension without its padding; no bytes where it is refused.
pub fn data_of(s: &[u8], found: Result<Found, Refusal>) -> &[u8]
    requires { Within (length s.now) (place_of (extension_of found)) }
    ensures { PartOf s.now s.entry.ref_ptr (place_of (extension_of found)) result.ref_ptr result.now }
{
    match found {
        Ok(x) => bindings::bytes_of(s, Ok(x.place)),
        Err(why) => bindings::bytes_of(s, Err(why)),
    }
}

// The data of extension k without its padding; no bytes where it is refused.
pub fn content(s: &[u8], at: usize, k: usize) -> &[u8]
    ensures { PartOf s.now s.entry.ref_ptr (place_of (extension_at s.now at k)) result.ref_ptr result.now }
{
    data_of(s, Found::locate(s, at, k))
}
