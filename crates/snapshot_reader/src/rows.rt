// The rows of a snapshot, read into a table.
ghost use Rattle.std.specs.Prelude.{◌≡◌, true, ◌&&◌, List, ℕ, ◌+◌, ◌*◌, ◌<◌, length, get_or, eqb, ltb};
ghost use Rattle.kinds.specs.declared.Guid.{Guid};
ghost use Rattle.fields.specs.Fields.{field};
ghost use Rattle.lists.specs.Lists.{tabulate};
ghost use Rattle.rules.specs.Contract.{Whole};
ghost use Rattle.table_view.specs.View.{memory, view, oids_of, object_count, Holds};
ghost use Rattle.table_edit.specs.Edits.{add_exporter};
ghost use Rattle.snapshot_rows.specs.declared.Section.TheVariants.{Exporters, Objects, Interfaces, Sets};
ghost use Rattle.snapshot_reader.specs.ReadRows.{fits, RowRead, members_in, MembersFound};

use kinds::{Oid, Oxid, SetId, answer, limits};
use snapshot_rows::Section;
use table_columns::members::Members;
use table_view::find;

// Whether an exporter with a list can be added.
fn has_room(words: &[u64], store: &[u8], list: &[u8]) -> bool
    requires { Whole words.now × Whole store.now
        × (fits Exporters (view (memory words.now store.now)) ≡ true) }
    ensures { (x : ℕ) (u : Guid) →
        result ≡ fits Exporters (add_exporter (record { oxid = x; unknown = u; bindings = list.now }) (view (memory words.now store.now))) }
{
    call_enter::list_answer(words, store, list).is_ok()
}

// OXID, remote-unknown IPID, list length, list.
fn read_exporter(words: &mut [u64], store: &mut [u8], s: &[u8]) -> Option<usize>
    requires { Whole words.old × Whole store.old × (fits Exporters (view (memory words.old store.old)) ≡ true) }
    ensures { RowRead Exporters s.now (view (memory words.old store.old)) result
        (view (memory words.new store.new)) }
{
    let size = fields::read_u16(s, 24) as usize;
    let from = fields::within(s, 26);
    let to = fields::within(s, 26 + size);
    let list = &s[from..to];
    if !has_room(words, store, list) {
        return None;
    }
    let oxid = Oxid(fields::read_u64(s, 0));
    let unknown = fields::read_guid(s, 8);
    table_edit::append_exporter(words, store, oxid, unknown, list);
    Some(to)
}

// OID, OXID, no-ping mark, time last heard.
fn read_object(words: &mut [u64], s: &[u8]) -> Option<usize>
    requires { Whole words.old × Holds (λ e. fits Objects e ≡ true) words.old }
    ensures { (t : List ℕ) →
        RowRead Objects s.now (view (memory words.old t)) result (view (memory words.new t)) }
{
    if limits::OBJECT_PLACES <= find::object_count(words) {
        return None;
    }
    let oid = Oid(fields::read_u64(s, 0));
    let exporter = Oxid(fields::read_u64(s, 8));
    let no_ping = !fields::is_zero(s, 16, 1);
    let heard = fields::read_u64(s, 17);
    table_edit::add_object(words, oid, exporter, no_ping, heard);
    Some(fields::within(s, 25))
}

// The public and the eight private counts of an interface's row.
fn read_counts(s: &[u8]) -> [u32; 9]
    ensures { result ≡ tabulate 9 (λ k. field s.now (40 + 4 * k) 4) }
{
    let mut counts = [0u32; 9];
    for (k, count) in counts.iter_mut().enumerate() {
        *count = fields::read_u32(s, 40 + 4 * k);
    }
    counts
}

// IPID, IID, OID, counts.
fn read_interface(words: &mut [u64], s: &[u8]) -> Option<usize>
    requires { Whole words.old }
    ensures { (t : List ℕ) →
        RowRead Interfaces s.now (view (memory words.old t)) result (view (memory words.new t)) }
{
    if limits::INTERFACE_PLACES <= find::interface_count(words) {
        return None;
    }
    let ipid = fields::read_guid(s, 0);
    let iid = fields::read_guid(s, 16);
    let object = Oid(fields::read_u64(s, 32));
    table_edit::add_interface(words, ipid, iid, object, &read_counts(s));
    Some(fields::within(s, 76))
}

// Whether object j is member k of the n members of a set's row.
fn is_member(words: &[u64], j: usize, s: &[u8], k: usize, n: usize) -> bool
    requires { Whole words.now × (j < object_count words.now) × (n < 65536) }
    ensures { result ≡ (ltb k n && eqb (get_or (oids_of words.now) j 0) (field s.now (20 + 8 * k) 8)) }
{
    k < n && find::oid(words, j).0 == fields::read_u64(s, 20 + 8 * k)
}

// The rows of the n members of a set's row, which stand in the order of the objects.
fn find_members(words: &[u64], s: &[u8], n: usize) -> Option<Members>
    requires { Whole words.now × (n < 65536) }
    ensures { MembersFound (oids_of words.now) (members_in s.now n) result }
{
    let mut members = Members { low: 0, high: 0 };
    let mut k = 0;
    for j in 0..find::object_count(words) {
        if is_member(words, j, s, k, n) {
            members = members.put(j, true);
            k += 1;
        }
    }
    if k == n { Some(members) } else { None }
}

// Number, sequence number, ping time, member count and OIDs.
fn read_set(words: &mut [u64], s: &[u8]) -> Option<usize>
    requires { Whole words.old × Holds (λ e. fits Sets e ≡ true) words.old }
    ensures { (t : List ℕ) →
        RowRead Sets s.now (view (memory words.old t)) result (view (memory words.new t)) }
{
    if limits::SET_PLACES <= find::set_count(words) {
        return None;
    }
    let n = fields::read_u16(s, 18) as usize;
    let members = find_members(words, s, n)?;
    let number = SetId(fields::read_u64(s, 0));
    let sequence = fields::read_u16(s, 8);
    let pinged = fields::read_u64(s, 10);
    table_edit::add_set(words, number, sequence, pinged, members);
    Some(fields::within(s, 20 + 8 * n))
}

// The row of a section at the front of bytes, added where it fits; the result is then its length.
pub fn read_row(words: &mut [u64], store: &mut [u8], section: Section, s: &[u8]) -> Option<usize>
    requires { Whole words.old × Whole store.old × (fits section (view (memory words.old store.old)) ≡ true) }
    ensures { RowRead section s.now (view (memory words.old store.old)) result
        (view (memory words.new store.new)) }
{
    match section {
        Section::Exporters => read_exporter(words, store, s),
        Section::Objects => read_object(words, s),
        Section::Interfaces => read_interface(words, s),
        Section::Sets => read_set(words, s),
    }
}
