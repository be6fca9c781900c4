// Writing object references (OBJREF) in the standard, handler, custom and extended forms.
#![tactic(auto)]

ghost use Rattle.std.specs.Prelude.{◌≡◌, ◌+◌, ◌≤◌, ◌++◌, cond, length};
ghost use Rattle.kinds.specs.Answers.{answer_number};
ghost use Rattle.fields.specs.Writers.{wrote};
ghost use Rattle.fields.specs.Fields.{encode, written, stored, rounded, longest};
ghost use Rattle.elements.specs.Elements.{element_bytes, content_answer, given_answer};
ghost use Rattle.references.specs.References.{extended_signature, is_extended, fixed_size, answer_within};
ghost use Rattle.reference_writer.specs.Writing.{inside_depth, block_bytes, header_bytes, body_bytes, elements_bytes, reference_bytes, tail_answer, element_given, value_answer, write_reference};

use kinds::{Guid, Refusal};
use references::{Block, Reference};

// The levels that are left inside the outermost reference.
const INSIDE_DEPTH: usize = Reference::DEPTH - 1;

// ---- what is refused

// Of the list or the object data by itself.
fn tail_answer(reference: Reference, tail: &[u8]) -> Result<(), Refusal>
    ensures { answer_number result ≡ tail_answer reference tail.now }
{
    let f = reference.flags;
    if !references::is_form(f) {
        return Ok(());
    }
    if f == Reference::CUSTOM {
        return references::object_answer(reference.clsid, tail);
    }
    bindings::list_answer(tail)
}

// Of data that goes into the element of the outermost reference.
fn content_answer(x: &[u8]) -> Result<(), Refusal>
    ensures { answer_number result ≡ content_answer (answer_within inside_depth) x.now }
{
    if !elements::is_reference(x) {
        return Ok(());
    }
    references::answer_within(x, INSIDE_DEPTH)
}

// Of an identifier and data, to be written as an element.
fn given_answer(id: Guid, x: &[u8]) -> Result<(), Refusal>
    ensures { answer_number result ≡ given_answer (answer_within inside_depth) id x.now }
{
    if elements::is_nil(id) {
        return Err(Refusal::Layout);
    }
    if x.len() == 0 {
        return Err(Refusal::Layout);
    }
    if fields::LONGEST < x.len() as u64 {
        return Err(Refusal::Layout);
    }
    content_answer(x)
}

// Of the element; a form without elements has none.
fn element_given(reference: Reference, x: &[u8]) -> Result<(), Refusal>
    ensures { answer_number result ≡ cond (is_extended reference.flags) (given_answer (answer_within inside_depth) reference.element x.now) 0 }
{
    if reference.flags != Reference::EXTENDED {
        return Ok(());
    }
    given_answer(reference.element, x)
}

// What is refused before the room is looked at: 0, 13, 14, 21 or 22.
fn value_answer(reference: Reference, tail: &[u8], x: &[u8]) -> Result<(), Refusal>
    ensures { answer_number result ≡ value_answer reference tail.now x.now }
{
    if !references::is_form(reference.flags) {
        return Err(Refusal::Layout);
    }
    tail_answer(reference, tail)?;
    element_given(reference, x)?;
    if reference.flags == Reference::CUSTOM {
        return Ok(());
    }
    if reference.block.has_nil() {
        return Err(Refusal::NilIdentifier);
    }
    Ok(())
}

// ---- the bytes

// The bytes of the elements.
fn elements_length(reference: Reference, x: &[u8]) -> usize
    requires { element_given reference x.now ≡ 0 }
    ensures { (result ≡ cond (is_extended reference.flags) (32 + rounded (length x.now)) 0) × (result ≤ 4294967328) }
{
    if reference.flags != Reference::EXTENDED {
        return 0;
    }
    32 + fields::rounded(x.len() as u32) as usize
}

fn write_header(reference: Reference, buf: &mut [u8])
    requires { 24 ≤ length buf.old }
    ensures { buf.new ≡ written buf.old 0 (header_bytes reference) }
{
    fields::write_u32(buf, 0, Reference::SIGNATURE);
    fields::write_u32(buf, 4, reference.flags);
    fields::write_guid(buf, 8, reference.iid);
}

// Writes a block after the header.
fn write_block(block: Block, buf: &mut [u8])
    requires { 64 ≤ length buf.old }
    ensures { buf.new ≡ written buf.old 24 (block_bytes block) }
{
    fields::write_u32(buf, 24, block.flags);
    fields::write_u32(buf, 28, block.public);
    fields::write_u64(buf, 32, block.oxid.0);
    fields::write_u64(buf, 40, block.oid.0);
    fields::write_guid(buf, 48, block.ipid);
}

// Writes the fixed fields that each form has after the header.
fn write_body(reference: Reference, buf: &mut [u8])
    requires { fixed_size reference.flags ≤ length buf.old }
    ensures { buf.new ≡ written buf.old 24 (body_bytes reference) }
{
    let f = reference.flags;
    let block = reference.block;
    let clsid = reference.clsid;
    if f == Reference::STANDARD {
        write_block(block, buf);
    } else if f == Reference::HANDLER {
        write_block(block, buf);
        fields::write_guid(buf, 64, clsid);
    } else if f == Reference::CUSTOM {
        fields::write_guid(buf, 24, clsid);
        fields::write_u32(buf, 40, reference.extension);
        fields::write_u32(buf, 44, reference.size);
    } else if f == Reference::EXTENDED {
        write_block(block, buf);
        fields::write_u32(buf, 64, Reference::EXTENDED_SIGNATURE);
    }
}

// The count, the signature and the element of an extended reference, which fill buf.
fn write_element(id: Guid, x: &[u8], buf: &mut [u8])
    requires { (length x.now ≤ longest) × (length buf.old ≡ 32 + rounded (length x.now)) }
    ensures { buf.new ≡ written buf.old 0 (encode 4 1 ++ encode 4 extended_signature ++ element_bytes id x.now) }
{
    let n = x.len();
    let m = fields::rounded(n as u32);
    fields::write_u32(buf, 0, 1);
    fields::write_u32(buf, 4, Reference::EXTENDED_SIGNATURE);
    fields::write_guid(buf, 8, id);
    fields::write_u32(buf, 24, n as u32);
    fields::write_u32(buf, 28, m as u32);
    fields::copy(buf, 32, x);
    fields::fill(buf, 32 + n, m as usize - n);
}

// Writes the elements, which fill buf; a form without elements has none.
fn write_elements(reference: Reference, x: &[u8], buf: &mut [u8])
    requires { (element_given reference x.now ≡ 0) × (length buf.old ≡ cond (is_extended reference.flags) (32 + rounded (length x.now)) 0) }
    ensures { buf.new ≡ written buf.old 0 (elements_bytes reference x.now) }
{
    if reference.flags == Reference::EXTENDED {
        write_element(reference.element, x, buf);
    }
}

// Writes a reference with its list or object data, and the data of its element, at the front of buf, and keeps the rest.
pub fn write(reference: Reference, tail: &[u8], x: &[u8], buf: &mut [u8]) -> Result<usize, Refusal>
    ensures { (wrote result ≡ write_reference reference tail.now x.now (length buf.old))
        × (buf.new ≡ stored (answer_number result) (reference_bytes reference tail.now x.now) buf.old) }
{
    value_answer(reference, tail, x)?;
    let start = references::fixed_size(reference.flags);
    let at = start + tail.len();
    let length = at + elements_length(reference, x);
    if buf.len() < length {
        return Err(Refusal::NoRoom);
    }
    write_header(reference, buf);
    write_body(reference, buf);
    fields::copy(buf, start, tail);
    write_elements(reference, x, &mut buf[at..length]);
    Ok(length)
}
