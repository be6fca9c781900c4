// Writing a binding list from the words of its bindings.
#![tactic(auto)]

ghost use Rattle.std.specs.Prelude.{◌≡◌, ◌+◌, ◌*◌, ◌<◌, ◌≤◌, length, drop};
ghost use Rattle.kinds.specs.Answers.{answer_number};
ghost use Rattle.fields.specs.Fields.{written, stored};
ghost use Rattle.fields.specs.Writers.{wrote};
ghost use Rattle.bindings.specs.Bindings.{through_zero, first_binding, is_part};
ghost use Rattle.bindings.specs.ListBytes.{word_bytes};
ghost use Rattle.list_writer.specs.Writing.{ended, fits, made_list, write_list};

use bindings::Part;
use kinds::Refusal;

// The most words of bindings: N counts two more, which end the parts, and has 16 bits.
const MOST_WORDS: usize = 65533;

// Where the text that begins at from ends, with its zero word, which may be the one that ends the part.
fn text_end(words: &[u16], from: usize) -> usize
    requires { (length words.now ≤ 65533) × (from ≤ length words.now + 1) }
    ensures { (result ≡ from + length (through_zero (drop from (ended words.now)))) × (result ≤ length words.now + 1) }
{
    for i in from..words.len() {
        if words[i] == 0 {
            return i + 1;
        }
    }
    words.len() + 1
}

// Where the binding that begins at from ends.
fn binding_end(words: &[u16], from: usize, p: Part) -> usize
    requires { (length words.now ≤ 65533) × (from < length words.now) }
    ensures { (result ≡ from + length (first_binding p (drop from (ended words.now)))) × (from < result) × (result ≤ length words.now + 1) }
{
    match p {
        Part::Strings => text_end(words, from + 1),
        Part::Security => text_end(words, from + 2),
    }
}

// Whether words are bindings in a row.
fn in_a_row(words: &[u16], p: Part) -> bool
    requires { length words.now ≤ 65533 }
    ensures { result ≡ is_part p (ended words.now) }
{
    let mut i = 0;
    // A walk: each step is as long as its binding.
    while i < words.len() {
        if words[i] == 0 {
            return false;
        }
        i = binding_end(words, i, p);
    }
    i == words.len()
}

// Whether a list can hold these words.
fn fit(strings: &[u16], security: &[u16]) -> bool
    ensures { result ≡ fits strings.now security.now }
{
    strings.len() + security.len() <= MOST_WORDS
        && in_a_row(strings, Part::Strings)
        && in_a_row(security, Part::Security)
}

// Writes words at to, and keeps the rest.
fn put_words(buf: &mut [u8], to: usize, words: &[u16])
    requires { to + 2 * length words.now ≤ length buf.old }
    ensures { buf.new ≡ written buf.old to (word_bytes words.now) }
{
    for (i, &word) in words.iter().enumerate() {
        fields::write_u16(buf, to + 2 * i, word);
    }
}

// Writes N, S and both parts at the front of buf, and keeps the rest.
fn put_list(strings: &[u16], security: &[u16], buf: &mut [u8])
    requires { (length strings.now + length security.now ≤ 65533)
        × (8 + 2 * (length strings.now + length security.now) ≤ length buf.old) }
    ensures { buf.new ≡ written buf.old 0 (made_list strings.now security.now) }
{
    let n = strings.len();
    let k = security.len();
    fields::write_u16(buf, 0, (n + k + 2) as u16);
    fields::write_u16(buf, 2, (n + 1) as u16);
    put_words(buf, 4, strings);
    fields::write_u16(buf, 4 + 2 * n, 0);
    put_words(buf, 6 + 2 * n, security);
    fields::write_u16(buf, 6 + 2 * n + 2 * k, 0);
}

// Writes the list of these string and security bindings at the front of buf, and keeps the rest. Each binding is its words with its
// zero word; the words that end the parts are not given. 14 where a part is no bindings in a row, or there are too many words; 15.
pub fn write(strings: &[u16], security: &[u16], buf: &mut [u8]) -> Result<usize, Refusal>
    ensures { (wrote result ≡ write_list strings.now security.now (length buf.old))
        × (buf.new ≡ stored (answer_number result) (made_list strings.now security.now) buf.old) }
{
    if !fit(strings, security) {
        return Err(Refusal::Layout);
    }
    let size = 8 + 2 * (strings.len() + security.len());
    if buf.len() < size {
        return Err(Refusal::NoRoom);
    }
    put_list(strings, security, buf);
    Ok(size)
}
