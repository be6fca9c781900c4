// The element of an extended reference (DATAELEMENT), but for what its data holds.
#![tactic(auto)]

ghost use Rattle.std.specs.Prelude.{◌≡◌};
ghost use Rattle.kinds.specs.Answers.{answer_number};
ghost use Rattle.elements.specs.Elements.{is_nil, is_reference, element_front, element_end};

use kinds::{Guid, Refusal};

// "MEOW", the signature of a reference.
pub const SIGNATURE: u32 = 0x574F454D;

// Whether both halves of an identifier are zero.
pub fn is_nil(g: Guid) -> bool
    ensures { result ≡ is_nil g }
{
    g == Guid::NIL
}

// Whether bytes begin with the signature of a reference.
pub fn is_reference(x: &[u8]) -> bool
    ensures { result ≡ is_reference x.now }
{
    fields::read_u32(x, 0) == SIGNATURE
}

// Of an element up to its data, the length of data and padding included.
pub fn element_front(t: &[u8]) -> Result<(), Refusal>
    ensures { answer_number result ≡ element_front t.now }
{
    if t.len() < 16 {
        return Err(Refusal::Short);
    }
    if is_nil(fields::read_guid(t, 0)) {
        return Err(Refusal::Layout);
    }
    if t.len() < 20 {
        return Err(Refusal::Short);
    }
    let size = fields::read_u32(t, 16);
    if size == 0 {
        return Err(Refusal::Layout);
    }
    if t.len() < 24 {
        return Err(Refusal::Short);
    }
    let most = fields::read_u32(t, 20);
    if most as u64 != fields::rounded(size) {
        return Err(Refusal::Layout);
    }
    if t.len() < 24 + most as usize {
        return Err(Refusal::Short);
    }
    Ok(())
}

// Of an element after its data: the padding, and bytes left over.
pub fn element_end(t: &[u8]) -> Result<(), Refusal>
    requires { element_front t.now ≡ 0 }
    ensures { answer_number result ≡ element_end t.now }
{
    let from = 24 + (fields::read_u32(t, 16) as usize);
    let to = 24 + (fields::read_u32(t, 20) as usize);
    if !fields::is_zero(t, from, to - from) {
        return Err(Refusal::Layout);
    }
    if to < t.len() {
        return Err(Refusal::Layout);
    }
    Ok(())
}
