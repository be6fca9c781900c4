// The call that writes a snapshot: the live entries as bytes, for another box to load.
#![tactic(auto)]

ghost use Rattle.std.specs.Prelude.{◌≡◌};
ghost use Rattle.rules.specs.Calls.{Call, Look};
ghost use Rattle.table_view.specs.View.{memory, SoundTable, Stepped};
ghost use Rattle.fields.specs.Writers.{wrote};
ghost use Rattle.call_save.specs.Replies.{written_reply};

use kinds::Refusal;

mod sections;
mod size;

// The call on a sound table: the snapshot's length.
pub fn write_snapshot_step(words: &[u64], store: &[u8], buffer: &mut [u8]) -> Result<usize, Refusal>
    requires { SoundTable (memory words.now store.now) }
    ensures { Stepped (Call.looking (Look.write_snapshot buffer.old)) (memory words.now store.now)
        (written_reply (wrote result) buffer.new) (memory words.now store.now) }
{
    let n = size::snapshot_length(words, store);
    if buffer.len() < n {
        return Err(Refusal::NoRoom);
    }
    Ok(sections::put_snapshot(words, store, buffer))
}
