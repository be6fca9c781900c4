// The length of a snapshot, by counts.
ghost use Rattle.std.specs.Prelude.{◌≡◌, map, ◌≤◌, length};
ghost use Rattle.bindings.specs.Bindings.{joined};
ghost use Rattle.rules.specs.Contract.{Whole};
ghost use Rattle.rules.specs.Entries.{PingSet};
ghost use Rattle.rules.specs.Snapshot.{snapshot_bytes};
ghost use Rattle.table_view.specs.View.{memory, view, SoundTable, sets_of};

use table_view::find;

// The number of members of all sets together.
fn member_count(words: &[u64]) -> usize
    requires { Whole words.now }
    ensures { (result ≡ length (joined (map (λ (s : PingSet). s.members) (sets_of words.now)))) × (result ≤ 4096) }
{
    let mut total = 0;
    for i in 0..find::set_count(words) {
        total += find::members(words, i).size();
    }
    total
}

// The counts of the five sections and the two numbers take 26 bytes, an exporter 26 and its list, an object 25, an interface 76, a
// set 20 and 8 for each member.
pub fn snapshot_length(words: &[u64], store: &[u8]) -> usize
    requires { SoundTable (memory words.now store.now) }
    ensures { result ≡ length (snapshot_bytes (view (memory words.now store.now))) }
{
    let exporters = find::exporter_count(words);
    let lists = find::list_start(store, exporters);
    let objects = 25 * find::object_count(words);
    let interfaces = 76 * find::interface_count(words);
    let sets = 20 * find::set_count(words) + 8 * member_count(words);
    26 + 26 * exporters + lists + objects + interfaces + sets
}
