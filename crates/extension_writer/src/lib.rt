// Writing the extensions of a call header. An extension is four words (the two halves of its id, its pointer number, the size of its
// data); all data stand end to end.
#![tactic(auto)]

ghost use Rattle.std.specs.Prelude.{◌≡◌, true, cond, [], ◌+◌, ◌*◌, ◌/◌, ◌≤◌, eqb, length};
ghost use Rattle.kinds.specs.Answers.{answer_number};
ghost use Rattle.fields.specs.Fields.{written, longest, rounded};
ghost use Rattle.extensions.specs.Extensions.{pairs, extent_bytes, extents_bytes, pointers_bytes, pointed_bytes, array_bytes, reached};
ghost use Rattle.extension_writer.specs.Writing.{described, given, sizes, entry_writable, words_writable, extents_length, array_length, takes, write_walk};

use kinds::Refusal;

// Whether the sizes of the data are len in all.
fn sizes_are(entries: &[u64], len: usize) -> bool
    ensures { result ≡ eqb (sizes entries.now 0 (length entries.now / 4)) len }
{
    let mut rest = len as u64;
    for entry in entries.chunks_exact(4) {
        let size = entry[3];
        if rest < size {
            return false;
        }
        rest -= size;
    }
    rest == 0
}

// Whether the pointer is not null, and both fit 32 bits, the size also when it is rounded.
fn entry_writable(pointer: u64, size: u64) -> bool
    ensures { result ≡ entry_writable pointer size }
{
    if pointer == 0 {
        return false;
    }
    if 0xFFFFFFFF < pointer {
        return false;
    }
    size <= fields::LONGEST
}

fn words_writable(entries: &[u64]) -> bool
    ensures { result ≡ words_writable entries.now 0 (length entries.now / 4) }
{
    for entry in entries.chunks_exact(4) {
        if !entry_writable(entry[2], entry[3]) {
            return false;
        }
    }
    true
}

// Whether the extensions can be written: the words and data agree, and a reader would not refuse the array by 14.
fn takes(pointer: u32, array: u32, entries: &[u64], contents: &[u8]) -> bool
    ensures { result ≡ takes pointer array entries.now contents.now }
{
    if entries.len() % 4 != 0 {
        return false;
    }
    if !sizes_are(entries, contents.len()) {
        return false;
    }
    let n = entries.len() / 4;
    if pointer == 0 {
        if array != 0 {
            return false;
        }
        return n == 0;
    }
    if 32 < n {
        return false;
    }
    if array == 0 {
        return n == 0;
    }
    words_writable(entries)
}

// How many bytes the extensions take.
fn extents_length(entries: &[u64]) -> usize
    requires { (length entries.now / 4 ≤ 32) × (words_writable entries.now 0 (length entries.now / 4) ≡ true) }
    ensures { result ≡ extents_length entries.now 0 (length entries.now / 4) }
{
    let mut total = 0;
    for entry in entries.chunks_exact(4) {
        total += 24 + fields::rounded(entry[3] as u32) as usize;
    }
    total
}

// How many bytes the header's pointer and the array take.
fn array_length(pointer: u32, array: u32, entries: &[u64]) -> usize
    requires { (length entries.now / 4 ≤ 32) × (words_writable entries.now 0 (length entries.now / 4) ≡ true) }
    ensures { result ≡ array_length pointer array entries.now }
{
    if pointer == 0 {
        return 4;
    }
    if array == 0 {
        return 16;
    }
    let n = entries.len() / 4;
    20 + 4 * (extensions::paired(n as u32) as usize) + extents_length(entries)
}

// Writes one extension from at.
fn put_extent(buf: &mut [u8], at: usize, low: u64, high: u64, part: &[u8])
    requires { (length part.now ≤ longest) × (at + 24 + rounded (length part.now) ≤ length buf.old) }
    ensures { buf.new ≡ written buf.old at (extent_bytes (record { pointer = 0; id = record { low = low; high = high }; content = part.now })) }
{
    let size = part.len() as u32;
    let whole = fields::rounded(size);
    fields::write_u32(buf, at, whole as u32);
    fields::write_u64(buf, at + 4, low);
    fields::write_u64(buf, at + 12, high);
    fields::write_u32(buf, at + 20, size);
    fields::copy(buf, at + 24, part);
    fields::fill(buf, at + 24 + part.len(), whole as usize - part.len());
}

// Writes the extensions from at, one after the other.
fn put_extents(buf: &mut [u8], at: usize, entries: &[u64], contents: &[u8])
    requires { (sizes entries.now 0 (length entries.now / 4) ≤ length contents.now)
        × (words_writable entries.now 0 (length entries.now / 4) ≡ true)
        × (at + extents_length entries.now 0 (length entries.now / 4) ≤ length buf.old) }
    ensures { buf.new ≡ written buf.old at (extents_bytes (described entries.now contents.now 0 (length entries.now / 4))) }
{
    let mut to = at;
    let mut from = 0;
    for entry in entries.chunks_exact(4) {
        let size = entry[3] as usize;
        put_extent(buf, to, entry[0], entry[1], &contents[from..from + size]);
        to += 24 + fields::rounded(size as u32) as usize;
        from += size;
    }
}

// Writes the pointers of the extensions from at.
fn put_pointers(buf: &mut [u8], at: usize, entries: &[u64])
    requires { (words_writable entries.now 0 (length entries.now / 4) ≡ true)
        × (at + 4 * (length entries.now / 4) ≤ length buf.old) }
    ensures { buf.new ≡ written buf.old at (pointers_bytes (described entries.now [] 0 (length entries.now / 4))) }
{
    let mut to = at;
    for entry in entries.chunks_exact(4) {
        fields::write_u32(buf, to, entry[2] as u32);
        to += 4;
    }
}

// Writes what the array's pointer points to from at.
fn put_pointed(buf: &mut [u8], at: usize, entries: &[u64], contents: &[u8])
    requires { (length entries.now / 4 ≤ 32)
        × (sizes entries.now 0 (length entries.now / 4) ≤ length contents.now)
        × (words_writable entries.now 0 (length entries.now / 4) ≡ true)
        × (at + 4 + 4 * pairs (length entries.now / 4) + extents_length entries.now 0 (length entries.now / 4) ≤ length buf.old) }
    ensures { buf.new ≡ written buf.old at (pointed_bytes (described entries.now contents.now 0 (length entries.now / 4))) }
{
    let n = entries.len() / 4;
    let all = extensions::paired(n as u32);
    fields::write_u32(buf, at, all as u32);
    put_pointers(buf, at + 4, entries);
    fields::fill(buf, at + 4 + 4 * n, 4 * (all as usize - n));
    put_extents(buf, at + 4 + 4 * (all as usize), entries, contents);
}

// Writes the header's pointer and the array from at.
fn put_array(buf: &mut [u8], at: usize, pointer: u32, array: u32, entries: &[u64], contents: &[u8])
    requires { (length entries.now / 4 ≤ 32)
        × (sizes entries.now 0 (length entries.now / 4) ≤ length contents.now)
        × (words_writable entries.now 0 (length entries.now / 4) ≡ true)
        × (at + array_length pointer array entries.now ≤ length buf.old) }
    ensures { buf.new ≡ written buf.old at (array_bytes (given pointer array entries.now contents.now)) }
{
    fields::write_u32(buf, at, pointer);
    if pointer == 0 {
        return;
    }
    fields::write_u32(buf, at + 4, (entries.len() / 4) as u32);
    fields::write_u32(buf, at + 8, 0);
    fields::write_u32(buf, at + 12, array);
    if array == 0 {
        return;
    }
    put_pointed(buf, at + 16, entries, contents);
}

// Writes the header's pointer at at and what it points to, and gives the header's length; or refuses by 14 or 15 with no change.
pub fn write(
    buf: &mut [u8],
    at: usize,
    pointer: u32,
    array: u32,
    entries: &[u64],
    contents: &[u8],
) -> Result<usize, Refusal>
    ensures { (reached result ≡ write_walk pointer array entries.now contents.now at (length buf.old))
        × (buf.new ≡ cond (eqb (answer_number result) 0) (written buf.old at (array_bytes (given pointer array entries.now contents.now))) buf.old) }
{
    if !takes(pointer, array, entries, contents) {
        return Err(Refusal::Layout);
    }
    let n = array_length(pointer, array, entries);
    if !fields::inside(buf.len(), at, n) {
        return Err(Refusal::NoRoom);
    }
    put_array(buf, at, pointer, array, entries, contents);
    Ok(at + n)
}
