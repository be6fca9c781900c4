// The call of a record performed, and its recorded answer compared.
#![tactic(auto)]

pub mod plain;

ghost use Rattle.table_view.specs.View.{memory, SoundTable};

use table_columns::buckets;

// A row for an add or a release: the one of its IPID where there is one, noted under its bucket for a later record. What the hints
// hold is undecided: whoever tries a row compares its IPID.
pub fn noted_row(words: &[u64], store: &[u8], hints: &mut [u8; buckets::BUCKETS], call: &[u8]) -> u8
    requires { SoundTable (memory words.now store.now) }
{
    let code = recording::byte(call, 0);
    if code < 5 {
        return 0;
    }
    if 6 < code {
        return 0;
    }
    let ipid = fields::read_guid(call, 5);
    let b = buckets::of_guid(ipid);
    let row = call_references::interface_row(words, store, hints[b], ipid);
    hints[b] = (row % 256) as u8;
    hints[b]
}
