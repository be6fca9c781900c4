// The call headers ORPCTHIS and ORPCTHAT with their extensions.
#![tactic(auto)]

ghost use Rattle.std.specs.Prelude.{◌≡◌, [], ◌≤◌, length};
ghost use Rattle.kinds.specs.Answers.{answer_number};
ghost use Rattle.fields.specs.Fields.{stored, written};
ghost use Rattle.bindings.specs.Bindings.{PartOf};
ghost use Rattle.extensions.specs.Extensions.{place_of, reached, extension_of};
ghost use Rattle.extension_writer.specs.Writing.{given};
ghost use Rattle.headers.specs.Headers.{this_walk, read_this, this_extension, this_front, this_bytes, this_written, this_writing, read_that, that_extension, that_bytes, that_writing, none};
ghost use Rattle.headers.specs.Headers.{this_read, that_read};

use extensions::{Extensions, Found};
use kinds::{Guid, Refusal};

// A header that was read, what it says of its extensions, and its length.
#[derive(Clone, Copy)]
pub struct Whole<H: Copy> {
    pub header: H,
    pub extensions: Extensions,
    pub length: usize,
}

// The header of a call. Its major version is MAJOR.
#[repr(C)]
#[derive(Clone, Copy)]
pub struct OrpcThis {
    pub minor: u16,
    pub flags: u32,
    pub causality: Guid,
}

// The same of one that was read, or the number of a refusal with zeros, as C takes it.
#[repr(C)]
#[derive(Clone, Copy)]
pub struct ReadThis {
    pub answer: u32,
    pub header: OrpcThis,
    pub extensions: Extensions,
    pub length: usize,
}

impl From<Result<Whole<OrpcThis>, Refusal>> for ReadThis {
    ghost from_gives = { λ read given. given ≡ this_read read };

    fn from(read: Result<Whole<OrpcThis>, Refusal>) -> ReadThis {
        match read {
            Ok(x) => ReadThis {
                answer: 0,
                header: x.header,
                extensions: x.extensions,
                length: x.length,
            },
            Err(why) => ReadThis {
                answer: u32::from(why),
                header: OrpcThis {
                    minor: 0,
                    flags: 0,
                    causality: Guid::NIL,
                },
                extensions: Extensions {
                    pointer: 0,
                    array: 0,
                    count: 0,
                },
                length: 0,
            },
        }
    }
}

impl OrpcThis {
    // The major version that is spoken.
    pub const MAJOR: u16 = 5;

    // The highest minor version that is understood.
    pub const MINOR: u16 = 7;

    pub const SIZE: usize = 32;

    pub fn new(minor: u16, flags: u32, causality: Guid) -> OrpcThis
        ensures { result ≡ record { minor = minor; flags = flags; causality = causality } }
    {
        OrpcThis {
            minor,
            flags,
            causality,
        }
    }

    // The length of the header at the front of s: 13 short, 16 version not understood, 14 a broken array.
    pub fn judge(s: &[u8]) -> Result<usize, Refusal>
        ensures { reached result ≡ this_walk s.now }
    {
        if s.len() < OrpcThis::SIZE {
            return Err(Refusal::Short);
        }
        if fields::read_u16(s, 0) != OrpcThis::MAJOR {
            return Err(Refusal::Version);
        }
        if OrpcThis::MINOR < fields::read_u16(s, 2) {
            return Err(Refusal::Version);
        }
        extensions::judge(s, 28)
    }

    // Reads the header at the front of s. The bytes after it are the call's own.
    pub fn read(s: &[u8]) -> Result<Whole<OrpcThis>, Refusal>
        ensures { this_read result ≡ read_this s.now }
    {
        let length = OrpcThis::judge(s)?;
        Ok(Whole {
            header: OrpcThis::new(
                fields::read_u16(s, 2),
                fields::read_u32(s, 4),
                fields::read_guid(s, 12),
            ),
            extensions: extensions::stated(s, 28),
            length: length,
        })
    }

    // Extension k: the header's refusals first, then 24.
    pub fn extension(s: &[u8], k: usize) -> Result<Found, Refusal>
        ensures { extension_of result ≡ this_extension s.now k }
    {
        OrpcThis::judge(s)?;
        Found::numbered(s, 28, k)
    }

    // The data of extension k without its padding; no bytes where it is refused.
    pub fn extension_data(s: &[u8], k: usize) -> &[u8]
        ensures { PartOf s.now s.entry.ref_ptr (place_of (this_extension s.now k)) result.ref_ptr result.now }
    {
        extensions::data_of(s, OrpcThis::extension(s, k))
    }

    // Writes the 28 bytes before the extensions.
    fn write_front(self, buf: &mut [u8])
        requires { 28 ≤ length buf.old }
        ensures { buf.new ≡ written buf.old 0 (this_front 0 self) }
    {
        fields::write_u16(buf, 0, OrpcThis::MAJOR);
        fields::write_u16(buf, 2, self.minor);
        fields::write_u32(buf, 4, self.flags);
        fields::write_u32(buf, 8, 0);
        fields::write_guid(buf, 12, self.causality);
    }

    // Writes the header with no extensions at the front of buf and keeps the rest: 0, or 16 version not understood, 15 buffer too short.
    pub fn write(self, buf: &mut [u8]) -> Result<(), Refusal>
        ensures { (answer_number result ≡ this_written self 0 0 [] [] (length buf.old))
            × (buf.new ≡ stored (answer_number result) (this_bytes 0 self none) buf.old) }
    {
        if OrpcThis::MINOR < self.minor {
            return Err(Refusal::Version);
        }
        if buf.len() < OrpcThis::SIZE {
            return Err(Refusal::NoRoom);
        }
        self.write_front(buf);
        fields::write_u32(buf, 28, 0);
        Ok(())
    }

    // Writes the header with its extensions at the front of buf and keeps the rest: 0 and the header's length, or 16 version not
    // understood, 14 a broken array, 15 buffer too short, with 0 and no change.
    pub fn write_with(
        self,
        pointer: u32,
        array: u32,
        entries: &[u64],
        contents: &[u8],
        buf: &mut [u8],
    ) -> Result<usize, Refusal>
        ensures { (reached result ≡ this_writing self pointer array entries.now contents.now (length buf.old))
            × (buf.new ≡ stored (answer_number result) (this_bytes 0 self (given pointer array entries.now contents.now)) buf.old) }
    {
        if OrpcThis::MINOR < self.minor {
            return Err(Refusal::Version);
        }
        let length = extension_writer::write(buf, 28, pointer, array, entries, contents)?;
        self.write_front(buf);
        Ok(length)
    }
}

// The header of a reply.
#[repr(C)]
#[derive(Clone, Copy)]
pub struct OrpcThat {
    pub flags: u32,
}

// The same of one that was read, or the number of a refusal with zeros, as C takes it.
#[repr(C)]
#[derive(Clone, Copy)]
pub struct ReadThat {
    pub answer: u32,
    pub header: OrpcThat,
    pub extensions: Extensions,
    pub length: usize,
}

impl From<Result<Whole<OrpcThat>, Refusal>> for ReadThat {
    ghost from_gives = { λ read given. given ≡ that_read read };

    fn from(read: Result<Whole<OrpcThat>, Refusal>) -> ReadThat {
        match read {
            Ok(x) => ReadThat {
                answer: 0,
                header: x.header,
                extensions: x.extensions,
                length: x.length,
            },
            Err(why) => ReadThat {
                answer: u32::from(why),
                header: OrpcThat { flags: 0 },
                extensions: Extensions {
                    pointer: 0,
                    array: 0,
                    count: 0,
                },
                length: 0,
            },
        }
    }
}

impl OrpcThat {
    pub const SIZE: usize = 8;

    pub fn new(flags: u32) -> OrpcThat
        ensures { result ≡ record { flags = flags } }
    {
        OrpcThat { flags }
    }

    // Reads the header at the front of s. The bytes after it are the call's own.
    pub fn read(s: &[u8]) -> Result<Whole<OrpcThat>, Refusal>
        ensures { that_read result ≡ read_that s.now }
    {
        let length = extensions::judge(s, 4)?;
        Ok(Whole {
            header: OrpcThat::new(fields::read_u32(s, 0)),
            extensions: extensions::stated(s, 4),
            length: length,
        })
    }

    // Extension k: the header's refusals first, then 24.
    pub fn extension(s: &[u8], k: usize) -> Result<Found, Refusal>
        ensures { extension_of result ≡ that_extension s.now k }
    {
        Found::locate(s, 4, k)
    }

    // The data of extension k without its padding; no bytes where it is refused.
    pub fn extension_data(s: &[u8], k: usize) -> &[u8]
        ensures { PartOf s.now s.entry.ref_ptr (place_of (that_extension s.now k)) result.ref_ptr result.now }
    {
        extensions::content(s, 4, k)
    }

    // Writes the header with no extensions at the front of buf and keeps the rest: 0, or 15 buffer too short.
    pub fn write(self, buf: &mut [u8]) -> Result<(), Refusal>
        ensures { (answer_number result ≡ (that_writing 0 0 [] [] (length buf.old)).answer)
            × (buf.new ≡ stored (answer_number result) (that_bytes self none) buf.old) }
    {
        if buf.len() < OrpcThat::SIZE {
            return Err(Refusal::NoRoom);
        }
        fields::write_u32(buf, 0, self.flags);
        fields::write_u32(buf, 4, 0);
        Ok(())
    }

    // Writes the header with its extensions at the front of buf and keeps the rest: 0 and the header's length, or 14 a broken array,
    // 15 buffer too short, with 0 and no change.
    pub fn write_with(
        self,
        pointer: u32,
        array: u32,
        entries: &[u64],
        contents: &[u8],
        buf: &mut [u8],
    ) -> Result<usize, Refusal>
        ensures { (reached result ≡ that_writing pointer array entries.now contents.now (length buf.old))
            × (buf.new ≡ stored (answer_number result) (that_bytes self (given pointer array entries.now contents.now)) buf.old) }
    {
        let length = extension_writer::write(buf, 4, pointer, array, entries, contents)?;
        fields::write_u32(buf, 0, self.flags);
        Ok(length)
    }
}
