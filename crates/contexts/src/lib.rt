// The context in the object data of a custom reference, and its properties.
#![tactic(auto)]

ghost use Rattle.std.specs.Prelude.{◌≡◌, ◌≤◌, length, drop};
ghost use Rattle.kinds.specs.Answers.{answer_number};
ghost use Rattle.bindings.specs.Bindings.{PartOf, placed};
ghost use Rattle.fields.specs.Fields.{written, stored};
ghost use Rattle.fields.specs.Writers.{wrote};
ghost use Rattle.contexts.specs.Contexts.{is_marshaler, is_property_flags, property_answer, properties_answer, extents_answer, head_answer, context_answer};
ghost use Rattle.contexts.specs.Contexts.{context_at, read_context, property_at, content_place, property_place, read_property, head_bytes, property_bytes};
ghost use Rattle.contexts.specs.Contexts.{context_bytes, write_property_answer, write_property, write_context_answer, write_context, no_context, no_property, context_read, property_read};

use kinds::{Guid, Refusal};
use std::ops::Range;

// The fields of a context that are not fixed.
#[repr(C)]
#[derive(Clone, Copy)]
pub struct Context {
    pub id: Guid,
    pub reserved: u32,
    pub marshal: u32,
    pub count: u32,
    pub frozen: u32,
}

// The fields of a property before its data.
#[repr(C)]
#[derive(Clone, Copy)]
pub struct Property {
    pub clsid: Guid,
    pub policy: Guid,
    pub flags: u32,
}

// A context that was read, or the number of a refusal with zeros, as C takes it.
#[repr(C)]
#[derive(Clone, Copy)]
pub struct ReadContext {
    pub answer: u32,
    pub context: Context,
}

impl From<Result<Context, Refusal>> for ReadContext {
    ghost from_gives = { λ found given. given ≡ context_read found };

    fn from(found: Result<Context, Refusal>) -> ReadContext {
        match found {
            Ok(context) => ReadContext {
                answer: 0,
                context: context,
            },
            Err(why) => ReadContext {
                answer: u32::from(why),
                context: Context::zero(),
            },
        }
    }
}

// The same of a property.
#[repr(C)]
#[derive(Clone, Copy)]
pub struct ReadProperty {
    pub answer: u32,
    pub property: Property,
}

impl From<Result<Property, Refusal>> for ReadProperty {
    ghost from_gives = { λ found given. given ≡ property_read found };

    fn from(found: Result<Property, Refusal>) -> ReadProperty {
        match found {
            Ok(property) => ReadProperty {
                answer: 0,
                property: property,
            },
            Err(why) => ReadProperty {
                answer: u32::from(why),
                property: Property::zero(),
            },
        }
    }
}

impl Property {
    pub const PROPAGATE: u32 = 1;

    pub const EXPOSE: u32 = 2;

    pub const ENVOY: u32 = 4;
}

// The CLSID of the context marshaler.
const MARSHALER: Guid = Guid {
    low: 0x33B,
    high: 0x46000000000000C0,
};

// Whether a CLSID is the context marshaler's.
pub fn is_marshaler(g: Guid) -> bool
    ensures { result ≡ is_marshaler g }
{
    g == MARSHALER
}

fn is_property_flags(f: u32) -> bool
    ensures { result ≡ is_property_flags f }
{
    f == Property::PROPAGATE || f == Property::EXPOSE || f == Property::ENVOY
}

// Of the property at the front of the bytes.
fn property_answer(t: &[u8]) -> Result<(), Refusal>
    ensures { answer_number result ≡ property_answer t.now }
{
    if t.len() < 36 {
        return Err(Refusal::Short);
    }
    if !is_property_flags(fields::read_u32(t, 32)) {
        return Err(Refusal::Layout);
    }
    if t.len() < 40 {
        return Err(Refusal::Short);
    }
    if t.len() < 40 + (fields::read_u32(t, 36) as usize) {
        return Err(Refusal::Short);
    }
    Ok(())
}

// Of n properties in a row from the start of the bytes, with nothing after them. The heads and the data are counted apart, so that the way
// from a property to the next is one sum.
fn properties_answer(t: &[u8], n: u32) -> Result<(), Refusal>
    ensures { answer_number result ≡ properties_answer n t.now }
{
    let mut heads: usize = 0;
    let mut content: usize = 0;
    for _ in 0..n {
        let at = heads + content;
        property_answer(&t[at..])?;
        heads += 40;
        content += fields::read_u32(&t[at..], 36) as usize;
    }
    let at = heads + content;
    if at < t.len() {
        return Err(Refusal::Layout);
    }
    Ok(())
}

// Of the 48 bytes before the properties.
fn head_answer(s: &[u8]) -> Result<(), Refusal>
    ensures { answer_number result ≡ head_answer s.now }
{
    if s.len() < 2 {
        return Err(Refusal::Short);
    }
    if fields::read_u16(s, 0) != 1 {
        return Err(Refusal::Layout);
    }
    if s.len() < 4 {
        return Err(Refusal::Short);
    }
    if fields::read_u16(s, 2) != 1 {
        return Err(Refusal::Layout);
    }
    if s.len() < 24 {
        return Err(Refusal::Short);
    }
    if fields::read_u32(s, 20) != 2 {
        return Err(Refusal::Layout);
    }
    extents_answer(s)
}

// Of the rows of the head after the flags.
fn extents_answer(s: &[u8]) -> Result<(), Refusal>
    ensures { answer_number result ≡ extents_answer s.now }
{
    if s.len() < 32 {
        return Err(Refusal::Short);
    }
    if fields::read_u32(s, 28) != 0 {
        return Err(Refusal::Layout);
    }
    if s.len() < 36 {
        return Err(Refusal::Short);
    }
    if fields::read_u32(s, 32) != 0 {
        return Err(Refusal::Layout);
    }
    if s.len() < 48 {
        return Err(Refusal::Short);
    }
    Ok(())
}

// Whether the bytes are a context: 0, 13 or 14.
pub fn context_answer(s: &[u8]) -> Result<(), Refusal>
    ensures { answer_number result ≡ context_answer s.now }
{
    head_answer(s)?;
    properties_answer(&s[48..], fields::read_u32(s, 40))
}

// Where the data of property k of n properties stands, which begin at byte 48.
fn find(s: &[u8], n: u32, k: usize) -> Result<Range<usize>, Refusal>
    requires { (48 ≤ length s.now) × (properties_answer n (drop 48 s.now) ≡ 0) }
    ensures { placed result ≡ content_place n (drop 48 s.now) k 48 }
{
    let mut at: usize = 48;
    for i in 0..n as usize {
        let size = 40 + (fields::read_u32(&s[at..], 36) as usize);
        if i == k {
            return Ok(at + 40..at + size);
        }
        at += size;
    }
    Err(Refusal::NoBinding)
}

// Where the data of property k of a context stands: the context's refusals first, then 24.
pub fn locate(s: &[u8], k: usize) -> Result<Range<usize>, Refusal>
    ensures { placed result ≡ property_place s.now k }
{
    context_answer(s)?;
    find(s, fields::read_u32(s, 40), k)
}

// ---- the fields

impl Context {
    fn zero() -> Context
        ensures { result ≡ no_context }
    {
        Context {
            id: Guid::NIL,
            reserved: 0,
            marshal: 0,
            count: 0,
            frozen: 0,
        }
    }

    fn fields(s: &[u8]) -> Context
        ensures { result ≡ context_at s.now }
    {
        Context {
            id: fields::read_guid(s, 4),
            reserved: fields::read_u32(s, 24),
            marshal: fields::read_u32(s, 36),
            count: fields::read_u32(s, 40),
            frozen: fields::read_u32(s, 44),
        }
    }

    // Reads a context: its fields, or 13 or 14.
    pub fn read(s: &[u8]) -> Result<Context, Refusal>
        ensures { context_read result ≡ read_context s.now }
    {
        context_answer(s)?;
        Ok(Context::fields(s))
    }
}

impl Property {
    fn zero() -> Property
        ensures { result ≡ no_property }
    {
        Property {
            clsid: Guid::NIL,
            policy: Guid::NIL,
            flags: 0,
        }
    }

    fn fields(t: &[u8]) -> Property
        ensures { result ≡ property_at t.now }
    {
        Property {
            clsid: fields::read_guid(t, 0),
            policy: fields::read_guid(t, 16),
            flags: fields::read_u32(t, 32),
        }
    }

    // Reads the fields of property k of a context: the context's refusals first, then 24.
    pub fn read(s: &[u8], k: usize) -> Result<Property, Refusal>
        ensures { property_read result ≡ read_property s.now k }
    {
        let place = locate(s, k)?;
        Ok(Property::fields(&s[place.start - 40..]))
    }
}

// The data of property k of a context; no bytes where it is refused.
pub fn property_data(s: &[u8], k: usize) -> &[u8]
    ensures { PartOf s.now s.entry.ref_ptr (property_place s.now k) result.ref_ptr result.now }
{
    bindings::bytes_of(s, locate(s, k))
}

// ---- writing

impl Property {
    // Whether the property can be written with its data into n bytes: 0, 14 or 15.
    fn judge(self, content: &[u8], n: usize) -> Result<(), Refusal>
        ensures { answer_number result ≡ write_property_answer self content.now n }
    {
        if !is_property_flags(self.flags) {
            return Err(Refusal::Layout);
        }
        if 0xFFFFFFFF < content.len() {
            return Err(Refusal::Layout);
        }
        if n < 40 + content.len() {
            return Err(Refusal::NoRoom);
        }
        Ok(())
    }

    // Writes a property with its data at the front of buf, and keeps the rest.
    pub fn write(self, content: &[u8], buf: &mut [u8]) -> Result<usize, Refusal>
        ensures { (wrote result ≡ write_property self content.now (length buf.old))
            × (buf.new ≡ stored (answer_number result) (property_bytes self content.now) buf.old) }
    {
        self.judge(content, buf.len())?;
        fields::write_guid(buf, 0, self.clsid);
        fields::write_guid(buf, 16, self.policy);
        fields::write_u32(buf, 32, self.flags);
        fields::write_u32(buf, 36, content.len() as u32);
        fields::copy(buf, 40, content);
        Ok(40 + content.len())
    }
}

impl Context {
    // Whether the context can be written with the bytes of its properties into n bytes: 0, 13, 14 or 15.
    fn judge(self, properties: &[u8], n: usize) -> Result<(), Refusal>
        ensures { answer_number result ≡ write_context_answer self properties.now n }
    {
        properties_answer(properties, self.count)?;
        if n < 48 + properties.len() {
            return Err(Refusal::NoRoom);
        }
        Ok(())
    }

    // Writes the 48 bytes before the properties.
    fn write_head(self, buf: &mut [u8])
        requires { 48 ≤ length buf.old }
        ensures { buf.new ≡ written buf.old 0 (head_bytes self) }
    {
        fields::write_u16(buf, 0, 1);
        fields::write_u16(buf, 2, 1);
        fields::write_guid(buf, 4, self.id);
        fields::write_u32(buf, 20, 2);
        fields::write_u32(buf, 24, self.reserved);
        fields::write_u32(buf, 28, 0);
        fields::write_u32(buf, 32, 0);
        fields::write_u32(buf, 36, self.marshal);
        fields::write_u32(buf, 40, self.count);
        fields::write_u32(buf, 44, self.frozen);
    }

    // Writes a context with the bytes of its properties at the front of buf, and keeps the rest.
    pub fn write(self, properties: &[u8], buf: &mut [u8]) -> Result<usize, Refusal>
        ensures { (wrote result ≡ write_context self properties.now (length buf.old))
            × (buf.new ≡ stored (answer_number result) (context_bytes self properties.now) buf.old) }
    {
        self.judge(properties, buf.len())?;
        self.write_head(buf);
        fields::copy(buf, 48, properties);
        Ok(48 + properties.len())
    }
}
