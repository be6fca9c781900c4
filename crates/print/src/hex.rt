// Digits in hex.
ghost use Rattle.std.specs.Prelude.{◌≡◌, ◌/◌, ◌%◌, ◌<◌, ◌∷◌, [], false};
ghost use Rattle.std.specs.Fmt.{digit_glyph};

// A digit in ASCII.
fn digit(n: u8) -> u8
    requires { n < 16 }
    ensures { result ≡ digit_glyph false n }
{
    if n < 10 { b'0' + n } else { b'a' - 10 + n }
}

// The two digits of a byte.
pub fn pair(byte: u8) -> [u8; 2]
    ensures { result ≡ digit_glyph false (byte / 16) ∷ digit_glyph false (byte % 16) ∷ [] }
{
    [digit(byte / 16), digit(byte % 16)]
}
