// Binding lists, references and contexts.
ghost use Rattle.std.specs.Prelude.{◌≡◌, cond, eqb, length};
ghost use Rattle.fields.specs.Fields.{stored};
ghost use Rattle.contexts.specs.declared.Context.{Context};
ghost use Rattle.contexts.specs.declared.Property.{Property};
ghost use Rattle.references.specs.declared.Reference.{Reference};
ghost use Rattle.bindings.specs.Bindings.{front_answer, list_answer, list_length, binding_at};
ghost use Rattle.contexts.specs.Contexts.{read_context, read_property, property_bytes, write_property, context_bytes, write_context};
ghost use Rattle.cursors.specs.Cursors.{part_cursor, binding_step, context_cursor, property_step};
ghost use Rattle.list_writer.specs.Writing.{made_list, write_list};
ghost use Rattle.references.specs.Parts.{ElementFound};
ghost use Rattle.references.specs.References.{reference_answer, read_reference, tail_place, reference_binding, context_place};
ghost use Rattle.reference_writer.specs.Writing.{reference_bytes, write_reference};

use bindings::{Part, Place};
use contexts::{Context, Property, ReadContext, ReadProperty};
use cursors::parts::Step;
use cursors::properties::PropertyStep;
use cursors::{Cursor, Walk};
use fields::Written;
use kinds::{Guid, Oid, Oxid};
use references::{Block, ReadReference, Reference};

// Of the bytes as a whole binding list.
#[unsafe(no_mangle)]
pub extern "C" fn rimonakh_list_answer(bytes: &[u8]) -> u32
    ensures { result ≡ list_answer bytes.now }
{
    kinds::number(bindings::list_answer(bytes))
}

// Of the binding list at the front of bytes.
#[unsafe(no_mangle)]
pub extern "C" fn rimonakh_list_front_answer(bytes: &[u8]) -> u32
    ensures { result ≡ front_answer bytes.now }
{
    kinds::number(bindings::front_answer(bytes))
}

// The length of the binding list at the front of bytes.
#[unsafe(no_mangle)]
pub extern "C" fn rimonakh_list_front_length(bytes: &[u8]) -> usize
    ensures { result ≡ cond (eqb (front_answer bytes.now) 0) (list_length bytes.now) 0 }
{
    bindings::list_length(bytes)
}

// Where string binding k of a whole list stands.
#[unsafe(no_mangle)]
pub extern "C" fn rimonakh_list_string_binding(bytes: &[u8], k: usize) -> Place
    ensures { result ≡ binding_at bytes.now Part.Strings k }
{
    Place::from(bindings::locate(bytes, Part::Strings, k))
}

// Where security binding k of a whole list stands.
#[unsafe(no_mangle)]
pub extern "C" fn rimonakh_list_security_binding(bytes: &[u8], k: usize) -> Place
    ensures { result ≡ binding_at bytes.now Part.Security k }
{
    Place::from(bindings::locate(bytes, Part::Security, k))
}

// Writes the list of these string and security bindings at the front of buffer.
#[unsafe(no_mangle)]
pub extern "C" fn rimonakh_list_write(
    strings: &[u16],
    security: &[u16],
    buffer: &mut [u8],
) -> Written
    ensures { (result ≡ write_list strings.now security.now (length buffer.old))
        × (buffer.new ≡ stored result.answer (made_list strings.now security.now) buffer.old) }
{
    Written::from(list_writer::write(strings, security, buffer))
}

// Whether the bytes are a reference.
#[unsafe(no_mangle)]
pub extern "C" fn rimonakh_reference_answer(bytes: &[u8]) -> u32
    ensures { result ≡ reference_answer bytes.now }
{
    kinds::number(references::reference_answer(bytes))
}

// Reads a reference.
#[unsafe(no_mangle)]
pub extern "C" fn rimonakh_reference_read(bytes: &[u8]) -> ReadReference
    ensures { result ≡ read_reference bytes.now }
{
    ReadReference::from(Reference::read(bytes))
}

// Where the binding list or the object data of a reference stands.
#[unsafe(no_mangle)]
pub extern "C" fn rimonakh_reference_tail(bytes: &[u8]) -> Place
    ensures { result ≡ tail_place bytes.now }
{
    Place::from(references::tail_place(bytes))
}

// Where string binding k of a reference stands.
#[unsafe(no_mangle)]
pub extern "C" fn rimonakh_reference_string_binding(bytes: &[u8], k: usize) -> Place
    ensures { result ≡ reference_binding bytes.now Part.Strings k }
{
    Place::from(references::locate(bytes, Part::Strings, k))
}

// Where security binding k of a reference stands.
#[unsafe(no_mangle)]
pub extern "C" fn rimonakh_reference_security_binding(bytes: &[u8], k: usize) -> Place
    ensures { result ≡ reference_binding bytes.now Part.Security k }
{
    Place::from(references::locate(bytes, Part::Security, k))
}

// Where the data of element k of a reference stands.
#[unsafe(no_mangle)]
pub extern "C" fn rimonakh_reference_element(bytes: &[u8], k: usize) -> Place
    ensures { ElementFound bytes.now k result }
{
    Place::from(references::locate_element(bytes, k))
}

// Where the data of context property k of a reference stands.
#[unsafe(no_mangle)]
pub extern "C" fn rimonakh_reference_property(bytes: &[u8], k: usize) -> Place
    ensures { result ≡ context_place bytes.now k }
{
    Place::from(references::locate_property(bytes, k))
}

// Reads a context, the object data of a custom reference with the context marshaler's CLSID.
#[unsafe(no_mangle)]
pub extern "C" fn rimonakh_context_read(bytes: &[u8]) -> ReadContext
    ensures { result ≡ read_context bytes.now }
{
    ReadContext::from(Context::read(bytes))
}

// Reads the fields of property k of a context.
#[unsafe(no_mangle)]
pub extern "C" fn rimonakh_context_property(bytes: &[u8], k: usize) -> ReadProperty
    ensures { result ≡ read_property bytes.now k }
{
    ReadProperty::from(Property::read(bytes, k))
}

// Writes a property with its data at the front of buffer.
#[unsafe(no_mangle)]
pub extern "C" fn rimonakh_property_write(
    clsid_low: u64,
    clsid_high: u64,
    policy_low: u64,
    policy_high: u64,
    flags: u32,
    content: &[u8],
    buffer: &mut [u8],
) -> Written
    ensures { (let property : Property = record { clsid = record { low = clsid_low; high = clsid_high }; policy = record { low = policy_low; high = policy_high }; flags = flags } in
        (result ≡ write_property property content.now (length buffer.old))
        × (buffer.new ≡ stored result.answer (property_bytes property content.now) buffer.old)) }
{
    let clsid = Guid {
        low: clsid_low,
        high: clsid_high,
    };
    let policy = Guid {
        low: policy_low,
        high: policy_high,
    };
    let property = Property {
        clsid: clsid,
        policy: policy,
        flags: flags,
    };
    Written::from(property.write(content, buffer))
}

// Writes a context with the bytes of its properties at the front of buffer.
#[unsafe(no_mangle)]
pub extern "C" fn rimonakh_context_write(
    id_low: u64,
    id_high: u64,
    reserved: u32,
    marshal: u32,
    count: u32,
    frozen: u32,
    properties: &[u8],
    buffer: &mut [u8],
) -> Written
    ensures { (let context : Context = record { id = record { low = id_low; high = id_high }; reserved = reserved; marshal = marshal; count = count; frozen = frozen } in
        (result ≡ write_context context properties.now (length buffer.old))
        × (buffer.new ≡ stored result.answer (context_bytes context properties.now) buffer.old)) }
{
    let id = Guid {
        low: id_low,
        high: id_high,
    };
    let context = Context {
        id: id,
        reserved: reserved,
        marshal: marshal,
        count: count,
        frozen: frozen,
    };
    Written::from(context.write(properties, buffer))
}

// Writes a reference with its list or object data, and the data of its element, at the front of buffer. Fields that the form does not have are not written.
#[unsafe(no_mangle)]
pub extern "C" fn rimonakh_reference_write(
    flags: u32,
    iid_low: u64,
    iid_high: u64,
    block_flags: u32,
    public: u32,
    oxid: u64,
    oid: u64,
    ipid_low: u64,
    ipid_high: u64,
    clsid_low: u64,
    clsid_high: u64,
    extension: u32,
    size: u32,
    element_low: u64,
    element_high: u64,
    tail: &[u8],
    content: &[u8],
    buffer: &mut [u8],
) -> Written
    ensures { (let reference : Reference =
        record {
          flags = flags;
          iid = record { low = iid_low; high = iid_high };
          block = record { flags = block_flags; public = public; oxid = record { 0 = oxid }; oid = record { 0 = oid }; ipid = record { low = ipid_low; high = ipid_high } };
          clsid = record { low = clsid_low; high = clsid_high };
          extension = extension;
          size = size;
          element = record { low = element_low; high = element_high };
        } in
        (result ≡ write_reference reference tail.now content.now (length buffer.old))
        × (buffer.new ≡ stored result.answer (reference_bytes reference tail.now content.now) buffer.old)) }
{
    let iid = Guid {
        low: iid_low,
        high: iid_high,
    };
    let ipid = Guid {
        low: ipid_low,
        high: ipid_high,
    };
    let clsid = Guid {
        low: clsid_low,
        high: clsid_high,
    };
    let element = Guid {
        low: element_low,
        high: element_high,
    };
    let block = Block {
        flags: block_flags,
        public: public,
        oxid: Oxid(oxid),
        oid: Oid(oid),
        ipid: ipid,
    };
    let reference = Reference {
        flags: flags,
        iid: iid,
        block: block,
        clsid: clsid,
        extension: extension,
        size: size,
        element: element,
    };
    Written::from(reference_writer::write(reference, tail, content, buffer))
}

// ---- in one pass

// Where a walk over the string bindings of a whole list begins.
#[unsafe(no_mangle)]
pub extern "C" fn rimonakh_list_strings(bytes: &[u8]) -> Cursor
    ensures { result ≡ part_cursor bytes.now Part.Strings }
{
    Cursor::from(cursors::parts::start(bytes, Part::Strings))
}

// Where a walk over the security bindings of a whole list begins.
#[unsafe(no_mangle)]
pub extern "C" fn rimonakh_list_securities(bytes: &[u8]) -> Cursor
    ensures { result ≡ part_cursor bytes.now Part.Security }
{
    Cursor::from(cursors::parts::start(bytes, Part::Security))
}

// The string binding where a walk stands.
#[unsafe(no_mangle)]
pub extern "C" fn rimonakh_list_next_string(bytes: &[u8], at: usize, left: usize) -> Step
    ensures { result ≡ binding_step bytes.now Part.Strings at left }
{
    let walk = Walk { at: at, left: left };
    Step::from(walk.binding(bytes, Part::Strings))
}

// The security binding where a walk stands.
#[unsafe(no_mangle)]
pub extern "C" fn rimonakh_list_next_security(bytes: &[u8], at: usize, left: usize) -> Step
    ensures { result ≡ binding_step bytes.now Part.Security at left }
{
    let walk = Walk { at: at, left: left };
    Step::from(walk.binding(bytes, Part::Security))
}

// Where a walk over the properties of a context begins.
#[unsafe(no_mangle)]
pub extern "C" fn rimonakh_context_properties(bytes: &[u8]) -> Cursor
    ensures { result ≡ context_cursor bytes.now }
{
    Cursor::from(cursors::properties::start(bytes))
}

// The property where a walk stands.
#[unsafe(no_mangle)]
pub extern "C" fn rimonakh_context_next_property(
    bytes: &[u8],
    at: usize,
    left: usize,
) -> PropertyStep
    ensures { result ≡ property_step bytes.now at left }
{
    let walk = Walk { at: at, left: left };
    PropertyStep::from(walk.property(bytes))
}
