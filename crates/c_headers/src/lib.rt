// What C and Rust programs link of call headers and their extensions: as in c_api, each is a function over numbers and slices with the
// promise of the one that it calls.
#![tactic(auto)]

ghost use Rattle.std.specs.Prelude.{◌≡◌, [], length};
ghost use Rattle.fields.specs.Fields.{stored};
ghost use Rattle.headers.specs.declared.OrpcThis.{OrpcThis};
ghost use Rattle.extension_writer.specs.Writing.{given};
ghost use Rattle.headers.specs.Headers.{read_this, this_extension, this_bytes, this_written, this_writing, read_that, that_extension, that_bytes, that_writing, none};
ghost use Rattle.cursors.specs.Cursors.{this_cursor, extensions_cursor, extension_step};

use cursors::extents::{ExtensionCursor, ExtensionStep, ExtensionWalk};
use extensions::{Extension, Walked};
use headers::{OrpcThat, OrpcThis, ReadThat, ReadThis};
use kinds::Guid;

// Reads the ORPCTHIS at the front of bytes.
#[unsafe(no_mangle)]
pub extern "C" fn rimonakh_this_read(bytes: &[u8]) -> ReadThis
    ensures { result ≡ read_this bytes.now }
{
    ReadThis::from(OrpcThis::read(bytes))
}

// Extension k of the ORPCTHIS at the front of bytes.
#[unsafe(no_mangle)]
pub extern "C" fn rimonakh_this_extension(bytes: &[u8], k: usize) -> Extension
    ensures { result ≡ this_extension bytes.now k }
{
    Extension::from(OrpcThis::extension(bytes, k))
}

// Writes an ORPCTHIS without extensions at the front of buffer.
#[unsafe(no_mangle)]
pub extern "C" fn rimonakh_this_write(
    minor: u16,
    flags: u32,
    causality_low: u64,
    causality_high: u64,
    buffer: &mut [u8],
) -> u32
    ensures { (let header : OrpcThis = record { minor = minor; flags = flags; causality = record { low = causality_low; high = causality_high } } in
        (result ≡ this_written header 0 0 [] [] (length buffer.old))
        × (buffer.new ≡ stored result (this_bytes 0 header none) buffer.old)) }
{
    let causality = Guid {
        low: causality_low,
        high: causality_high,
    };
    let header = OrpcThis::new(minor, flags, causality);
    kinds::number(header.write(buffer))
}

// Writes an ORPCTHIS with its extensions at the front of buffer: four words for each in entries, all data end to end in contents.
#[unsafe(no_mangle)]
pub extern "C" fn rimonakh_this_write_extensions(
    minor: u16,
    flags: u32,
    causality_low: u64,
    causality_high: u64,
    pointer: u32,
    array: u32,
    entries: &[u64],
    contents: &[u8],
    buffer: &mut [u8],
) -> Walked
    ensures { (let header : OrpcThis = record { minor = minor; flags = flags; causality = record { low = causality_low; high = causality_high } } in
        (result ≡ this_writing header pointer array entries.now contents.now (length buffer.old))
        × (buffer.new ≡ stored result.answer (this_bytes 0 header (given pointer array entries.now contents.now)) buffer.old)) }
{
    let causality = Guid {
        low: causality_low,
        high: causality_high,
    };
    let header = OrpcThis::new(minor, flags, causality);
    Walked::from(header.write_with(pointer, array, entries, contents, buffer))
}

// Reads the ORPCTHAT at the front of bytes.
#[unsafe(no_mangle)]
pub extern "C" fn rimonakh_that_read(bytes: &[u8]) -> ReadThat
    ensures { result ≡ read_that bytes.now }
{
    ReadThat::from(OrpcThat::read(bytes))
}

// Extension k of the ORPCTHAT at the front of bytes.
#[unsafe(no_mangle)]
pub extern "C" fn rimonakh_that_extension(bytes: &[u8], k: usize) -> Extension
    ensures { result ≡ that_extension bytes.now k }
{
    Extension::from(OrpcThat::extension(bytes, k))
}

// Writes an ORPCTHAT without extensions at the front of buffer.
#[unsafe(no_mangle)]
pub extern "C" fn rimonakh_that_write(flags: u32, buffer: &mut [u8]) -> u32
    ensures { (result ≡ (that_writing 0 0 [] [] (length buffer.old)).answer)
        × (buffer.new ≡ stored result (that_bytes (record { flags = flags }) none) buffer.old) }
{
    let header = OrpcThat::new(flags);
    kinds::number(header.write(buffer))
}

// Writes an ORPCTHAT with its extensions at the front of buffer: four words for each in entries, all data end to end in contents.
#[unsafe(no_mangle)]
pub extern "C" fn rimonakh_that_write_extensions(
    flags: u32,
    pointer: u32,
    array: u32,
    entries: &[u64],
    contents: &[u8],
    buffer: &mut [u8],
) -> Walked
    ensures { (result ≡ that_writing pointer array entries.now contents.now (length buffer.old))
        × (buffer.new ≡ stored result.answer (that_bytes (record { flags = flags }) (given pointer array entries.now contents.now)) buffer.old) }
{
    let header = OrpcThat::new(flags);
    Walked::from(header.write_with(pointer, array, entries, contents, buffer))
}

// Where a walk over the extensions of the ORPCTHIS at the front of bytes begins.
#[unsafe(no_mangle)]
pub extern "C" fn rimonakh_this_extensions(bytes: &[u8]) -> ExtensionCursor
    ensures { result ≡ this_cursor bytes.now }
{
    ExtensionCursor::from(cursors::extents::start_this(bytes))
}

// Where a walk over the extensions of the ORPCTHAT at the front of bytes begins.
#[unsafe(no_mangle)]
pub extern "C" fn rimonakh_that_extensions(bytes: &[u8]) -> ExtensionCursor
    ensures { result ≡ extensions_cursor bytes.now 4 }
{
    ExtensionCursor::from(cursors::extents::start_that(bytes))
}

// The extension where a walk stands.
#[unsafe(no_mangle)]
pub extern "C" fn rimonakh_next_extension(
    bytes: &[u8],
    pointer: usize,
    at: usize,
    left: usize,
) -> ExtensionStep
    ensures { result ≡ extension_step bytes.now pointer at left }
{
    let walk = ExtensionWalk {
        pointer: pointer,
        at: at,
        left: left,
    };
    ExtensionStep::from(walk.next(bytes))
}
