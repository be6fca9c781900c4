// Object references (OBJREF) in the standard, handler, custom and extended forms.
#![tactic(auto)]

ghost use Rattle.std.specs.Prelude.{◌≡◌, ◌+◌, ◌≤◌, true, length};
ghost use Rattle.kinds.specs.Answers.{answer_number};
ghost use Rattle.bindings.specs.Bindings.{placed, PartOf};
ghost use Rattle.elements.specs.Elements.{element_answer};
ghost use Rattle.references.specs.References.{fixed_size, is_no_ping, is_form, has_nil, names_nil, block_at, no_block, no_reference, standard, handler, custom, extended};
ghost use Rattle.references.specs.References.{reference_at, object_answer, head_answer, plain_answer, list_end, extended_front, layout_answer, answer_within, reference_answer};
ghost use Rattle.references.specs.References.{reference_read, read_reference, tail_place, reference_binding, content_start, content_length, element_place, context_place};
ghost use Rattle.references.specs.Parts.{ElementFound};

use bindings::Part;
use kinds::{Guid, Oid, Oxid, Refusal};
use std::ops::Range;

// The standard object block (STDOBJREF).
#[repr(C)]
#[derive(Clone, Copy)]
pub struct Block {
    pub flags: u32,
    pub public: u32,
    pub oxid: Oxid,
    pub oid: Oid,
    pub ipid: Guid,
}

// The fixed fields of a reference. A field that its form does not have is zero.
#[repr(C)]
#[derive(Clone, Copy)]
pub struct Reference {
    pub flags: u32,
    pub iid: Guid,
    pub block: Block,
    pub clsid: Guid,
    pub extension: u32,
    pub size: u32,
    pub element: Guid,
}

// A reference that was read, or the number of a refusal with zeros, as C takes it.
#[repr(C)]
#[derive(Clone, Copy)]
pub struct ReadReference {
    pub answer: u32,
    pub reference: Reference,
}

impl From<Result<Reference, Refusal>> for ReadReference {
    ghost from_gives = { λ found given. given ≡ reference_read found };

    fn from(found: Result<Reference, Refusal>) -> ReadReference {
        match found {
            Ok(reference) => ReadReference {
                answer: 0,
                reference: reference,
            },
            Err(why) => ReadReference {
                answer: u32::from(why),
                reference: Reference::zero(),
            },
        }
    }
}

impl Block {
    // The bit of the flags that means no pinging.
    pub const NOPING: u32 = 0x1000;

    pub fn new(flags: u32, public: u32, oxid: Oxid, oid: Oid, ipid: Guid) -> Block
        ensures { result ≡ record { flags = flags; public = public; oxid = oxid; oid = oid; ipid = ipid } }
    {
        Block {
            flags,
            public,
            oxid,
            oid,
            ipid,
        }
    }

    fn zero() -> Block
        ensures { result ≡ no_block }
    {
        Block::new(0, 0, Oxid(0), Oid(0), Guid::NIL)
    }

    // Whether the object is not pinged.
    pub fn no_ping(self) -> bool
        ensures { result ≡ is_no_ping self }
    {
        self.flags / Block::NOPING % 2 == 1
    }

    // Whether the OXID, OID or IPID is zero.
    pub fn has_nil(self) -> bool
        ensures { result ≡ has_nil self }
    {
        self.oxid.0 == 0 || self.oid.0 == 0 || self.ipid == Guid::NIL
    }

    // The block of a standard or handler reference, after the header.
    fn read(s: &[u8]) -> Block
        ensures { result ≡ block_at s.now 24 }
    {
        let ipid = fields::read_guid(s, 48);
        Block::new(
            fields::read_u32(s, 24),
            fields::read_u32(s, 28),
            Oxid(fields::read_u64(s, 32)),
            Oid(fields::read_u64(s, 40)),
            ipid,
        )
    }
}

impl Reference {
    // "MEOW".
    pub const SIGNATURE: u32 = elements::SIGNATURE;

    pub const STANDARD: u32 = 1;

    pub const HANDLER: u32 = 2;

    pub const CUSTOM: u32 = 4;

    pub const EXTENDED: u32 = 8;

    // Before the list and before the elements of an extended reference.
    pub const EXTENDED_SIGNATURE: u32 = 0x4E535956;

    // References in references, the outermost counted.
    pub const DEPTH: usize = 8;

    pub fn standard(iid: Guid, block: Block) -> Reference
        ensures { result ≡ standard iid block }
    {
        Reference {
            flags: Reference::STANDARD,
            iid,
            block,
            clsid: Guid::NIL,
            extension: 0,
            size: 0,
            element: Guid::NIL,
        }
    }

    pub fn handler(iid: Guid, block: Block, clsid: Guid) -> Reference
        ensures { result ≡ handler iid block clsid }
    {
        Reference {
            flags: Reference::HANDLER,
            iid,
            block,
            clsid,
            extension: 0,
            size: 0,
            element: Guid::NIL,
        }
    }

    pub fn custom(iid: Guid, clsid: Guid, extension: u32, size: u32) -> Reference
        ensures { result ≡ custom iid clsid extension size }
    {
        let block = Block::zero();
        Reference {
            flags: Reference::CUSTOM,
            iid,
            block,
            clsid,
            extension,
            size,
            element: Guid::NIL,
        }
    }

    pub fn extended(iid: Guid, block: Block, element: Guid) -> Reference
        ensures { result ≡ extended iid block element }
    {
        Reference {
            flags: Reference::EXTENDED,
            iid,
            block,
            clsid: Guid::NIL,
            extension: 0,
            size: 0,
            element,
        }
    }

    pub fn zero() -> Reference
        ensures { result ≡ no_reference }
    {
        let block = Block::zero();
        Reference {
            flags: 0,
            iid: Guid::NIL,
            block,
            clsid: Guid::NIL,
            extension: 0,
            size: 0,
            element: Guid::NIL,
        }
    }

    // The fields of the form that the flags name.
    pub fn fields(s: &[u8]) -> Reference
        ensures { result ≡ reference_at s.now }
    {
        let f = fields::read_u32(s, 4);
        let iid = fields::read_guid(s, 8);
        let block = Block::read(s);
        if f == Reference::STANDARD {
            return Reference::standard(iid, block);
        }
        if f == Reference::HANDLER {
            return Reference::handler(iid, block, fields::read_guid(s, 64));
        }
        if f == Reference::CUSTOM {
            let clsid = fields::read_guid(s, 24);
            return Reference::custom(iid, clsid, fields::read_u32(s, 40), fields::read_u32(s, 44));
        }
        if f == Reference::EXTENDED {
            return Reference::extended(iid, block, fields::read_guid(s, list_end(s) + 8));
        }
        Reference::zero()
    }

    // Reads a reference: its fields, or 13, 14, 21 or 22. The fields are read first: what is copied from memory just written waits.
    pub fn read(s: &[u8]) -> Result<Reference, Refusal>
        ensures { reference_read result ≡ read_reference s.now }
    {
        let reference = Reference::fields(s);
        reference_answer(s)?;
        Ok(reference)
    }
}

// Whether the flags name a form.
pub fn is_form(f: u32) -> bool
    ensures { result ≡ is_form f }
{
    f == Reference::STANDARD
        || f == Reference::HANDLER
        || f == Reference::CUSTOM
        || f == Reference::EXTENDED
}

// The size of the fields before the list or the object data.
pub fn fixed_size(f: u32) -> usize
    ensures { result ≡ fixed_size f }
{
    if f == Reference::STANDARD {
        return 64;
    }
    if f == Reference::HANDLER {
        return 80;
    }
    if f == Reference::CUSTOM {
        return 48;
    }
    if f == Reference::EXTENDED {
        return 68;
    }
    0
}

// ---- judging a reference

// Of the header and the length of the fixed fields.
fn head_answer(s: &[u8]) -> Result<(), Refusal>
    ensures { answer_number result ≡ head_answer s.now }
{
    if s.len() < 24 {
        return Err(Refusal::Short);
    }
    if fields::read_u32(s, 0) != Reference::SIGNATURE {
        return Err(Refusal::Layout);
    }
    let f = fields::read_u32(s, 4);
    if !is_form(f) {
        return Err(Refusal::Layout);
    }
    if s.len() < fixed_size(f) {
        return Err(Refusal::Short);
    }
    Ok(())
}

// Of object data: a context where the CLSID says so.
pub fn object_answer(clsid: Guid, t: &[u8]) -> Result<(), Refusal>
    ensures { answer_number result ≡ object_answer clsid t.now }
{
    if contexts::is_marshaler(clsid) {
        return contexts::context_answer(t);
    }
    Ok(())
}

// Of what follows the fixed fields of a standard, handler or custom reference.
fn plain_answer(s: &[u8]) -> Result<(), Refusal>
    requires { head_answer s.now ≡ 0 }
    ensures { answer_number result ≡ plain_answer s.now }
{
    let f = fields::read_u32(s, 4);
    if f == Reference::CUSTOM {
        return object_answer(fields::read_guid(s, 24), &s[48..]);
    }
    let start = fixed_size(f);
    bindings::list_answer(&s[start..])
}

// Where the list of an extended reference ends.
fn list_end(s: &[u8]) -> usize
    ensures { (result ≡ list_end s.now) × (result ≤ 131142) }
{
    72 + 2 * (fields::read_u16(s, 68) as usize)
}

// Of an extended reference up to its element.
fn extended_front(s: &[u8]) -> Result<(), Refusal>
    requires { 68 ≤ length s.now }
    ensures { answer_number result ≡ extended_front s.now }
{
    if fields::read_u32(s, 64) != Reference::EXTENDED_SIGNATURE {
        return Err(Refusal::Layout);
    }
    bindings::front_answer(&s[68..])?;
    let end = list_end(s);
    if s.len() < end + 4 {
        return Err(Refusal::Short);
    }
    if fields::read_u32(s, end) != 1 {
        return Err(Refusal::Layout);
    }
    if s.len() < end + 8 {
        return Err(Refusal::Short);
    }
    if fields::read_u32(s, end + 4) != Reference::EXTENDED_SIGNATURE {
        return Err(Refusal::Layout);
    }
    Ok(())
}

// Judges the element at the front of t, the last of its reference, with d levels of references left in it.
#[cycle(element_layout)]
fn element(t: &[u8], d: usize) -> Result<(), Refusal>
    ensures { answer_number result ≡ element_answer (layout_answer d) t.now }
{
    elements::element_front(t)?;
    let to = 24 + (fields::read_u32(t, 16) as usize);
    if !elements::is_reference(&t[24..to]) {
        return elements::element_end(t);
    }
    layout(&t[24..to], d)?;
    elements::element_end(t)
}

// Judges a reference with d levels left, itself counted.
#[cycle(element_layout)]
fn layout(s: &[u8], d: usize) -> Result<(), Refusal>
    ensures { answer_number result ≡ layout_answer d s.now }
{
    if d == 0 {
        return Err(Refusal::TooDeep);
    }
    head_answer(s)?;
    if fields::read_u32(s, 4) != Reference::EXTENDED {
        return plain_answer(s);
    }
    extended_front(s)?;
    let start = list_end(s) + 8;
    element(&s[start..], d - 1)
}

// ---- zero identifiers

// Whether the OXID, OID or IPID of a reference with a block is zero.
fn nil_block(s: &[u8]) -> bool
    ensures { result ≡ has_nil (block_at s.now 24) }
{
    if fields::is_zero(s, 32, 8) {
        return true;
    }
    if fields::is_zero(s, 40, 8) {
        return true;
    }
    if !fields::is_zero(s, 48, 8) {
        return false;
    }
    fields::is_zero(s, 56, 8)
}

// Whether an accepted reference with d levels, or one inside it, names zero.
fn names_nil(s: &[u8], d: usize) -> bool
    requires { layout_answer d s.now ≡ 0 }
    ensures { result ≡ names_nil d s.now }
{
    if d == 0 {
        return false;
    }
    let f = fields::read_u32(s, 4);
    if f == Reference::CUSTOM {
        return false;
    }
    if nil_block(s) {
        return true;
    }
    if f != Reference::EXTENDED {
        return false;
    }
    let from = list_end(s) + 32;
    let to = from + (fields::read_u32(s, from - 8) as usize);
    if !elements::is_reference(&s[from..to]) {
        return false;
    }
    names_nil(&s[from..to], d - 1)
}

// Whether the bytes are a reference, with d levels left: 0, 13, 14, 21 or 22.
pub fn answer_within(s: &[u8], d: usize) -> Result<(), Refusal>
    ensures { answer_number result ≡ answer_within d s.now }
{
    layout(s, d)?;
    if names_nil(s, d) {
        return Err(Refusal::NilIdentifier);
    }
    Ok(())
}

// Whether the bytes are a reference: 0, 13, 14, 21 or 22.
pub fn reference_answer(s: &[u8]) -> Result<(), Refusal>
    ensures { answer_number result ≡ reference_answer s.now }
{
    answer_within(s, Reference::DEPTH)
}

// Where the binding list or the object data of a reference stands.
pub fn tail_place(s: &[u8]) -> Result<Range<usize>, Refusal>
    ensures { placed result ≡ tail_place s.now }
{
    reference_answer(s)?;
    let f = fields::read_u32(s, 4);
    if f == Reference::EXTENDED {
        return Ok(68..list_end(s));
    }
    Ok(fixed_size(f)..s.len())
}

// The binding list or the object data of a reference; no bytes where it is refused.
pub fn tail(s: &[u8]) -> &[u8]
    ensures { PartOf s.now s.entry.ref_ptr (tail_place s.now) result.ref_ptr result.now }
{
    bindings::bytes_of(s, tail_place(s))
}

// Where binding k of a part of a reference's list stands: the reference's refusals first; a custom reference has no list.
pub fn locate(s: &[u8], p: Part, k: usize) -> Result<Range<usize>, Refusal>
    ensures { placed result ≡ reference_binding s.now p k }
{
    let tail = tail_place(s)?;
    if fields::read_u32(s, 4) == Reference::CUSTOM {
        return Err(Refusal::NoBinding);
    }
    let from = tail.start;
    let found = bindings::locate(&s[tail], p, k)?;
    Ok(from + found.start..from + found.end)
}

// Whether there is a binding k: 0, the reference's refusals, or 24.
pub fn binding_answer(s: &[u8], p: Part, k: usize) -> Result<(), Refusal>
    ensures { answer_number result ≡ (reference_binding s.now p k).answer }
{
    locate(s, p, k)?;
    Ok(())
}

// Binding k, from its first word through its zero word; no bytes where it is refused.
pub fn binding(s: &[u8], p: Part, k: usize) -> &[u8]
    ensures { PartOf s.now s.entry.ref_ptr (reference_binding s.now p k) result.ref_ptr result.now }
{
    bindings::bytes_of(s, locate(s, p, k))
}

// ---- the element's data

// Where the data of an accepted extended reference's element stands.
fn content_place(s: &[u8]) -> Range<usize>
    ensures { result ≡ record { start = content_start s.now; end = content_start s.now + content_length s.now } }
{
    let from = list_end(s) + 32;
    from..from + (fields::read_u32(s, from - 8) as usize)
}

// Where the data of element k stands: the reference's refusals first, then 24.
pub fn locate_element(s: &[u8], k: usize) -> Result<Range<usize>, Refusal>
    ensures { ElementFound s.now k (placed result) }
{
    reference_answer(s)?;
    if fields::read_u32(s, 4) != Reference::EXTENDED {
        return Err(Refusal::NoBinding);
    }
    if k != 0 {
        return Err(Refusal::NoBinding);
    }
    Ok(content_place(s))
}

// Whether there is an element k: 0, the reference's refusals, or 24.
pub fn element_answer(s: &[u8], k: usize) -> Result<(), Refusal>
    ensures { answer_number result ≡ (element_place s.now k).answer }
{
    locate_element(s, k)?;
    Ok(())
}

// The data of element k; no bytes where it is refused.
pub fn element_data(s: &[u8], k: usize) -> &[u8]
    ensures { PartOf s.now s.entry.ref_ptr (element_place s.now k) result.ref_ptr result.now }
{
    bindings::bytes_of(s, locate_element(s, k))
}

// Where the data of context property k stands: the reference's refusals first, then 24.
pub fn locate_property(s: &[u8], k: usize) -> Result<Range<usize>, Refusal>
    ensures { placed result ≡ context_place s.now k }
{
    reference_answer(s)?;
    if fields::read_u32(s, 4) != Reference::CUSTOM {
        return Err(Refusal::NoBinding);
    }
    if !contexts::is_marshaler(fields::read_guid(s, 24)) {
        return Err(Refusal::NoBinding);
    }
    let found = contexts::locate(&s[48..], k)?;
    Ok(48 + found.start..48 + found.end)
}

// Whether there is a context property k: 0, the reference's refusals, or 24.
pub fn property_answer(s: &[u8], k: usize) -> Result<(), Refusal>
    ensures { answer_number result ≡ (context_place s.now k).answer }
{
    locate_property(s, k)?;
    Ok(())
}

// The data of context property k; no bytes where it is refused.
pub fn property_data(s: &[u8], k: usize) -> &[u8]
    ensures { PartOf s.now s.entry.ref_ptr (context_place s.now k) result.ref_ptr result.now }
{
    bindings::bytes_of(s, locate_property(s, k))
}
