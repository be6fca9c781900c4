// What C and Rust programs link, with c_headers: every operation as a function over numbers and slices. A slice is a pointer and a
// length, a GUID two numbers, an identifier one. Each function has the promise of the one that it calls. include/rimonakh.h declares them.
#![tactic(auto)]

ghost use Rattle.std.specs.Prelude.{◌≡◌};
ghost use Rattle.kinds.specs.Wire.{wire_code};
ghost use Rattle.c_api.specs.Version.{version};

mod bytes;
mod calls;
mod packets;

// The code that goes out on the wire for an answer number.
#[unsafe(no_mangle)]
pub extern "C" fn rimonakh_wire_code(number: u32) -> u32
    ensures { result ≡ wire_code number }
{
    kinds::wire_code(number)
}

// The library's version: its major number, and a byte each for minor and patch.
#[unsafe(no_mangle)]
pub extern "C" fn rimonakh_version() -> u32
    ensures { result ≡ version }
{
    0x000200
}
