// The bytes of one entry. Each function answers the place behind what it wrote.
ghost use Rattle.std.specs.Prelude.{◌≡◌, true, ◌<◌, length, ltb};
ghost use Rattle.lists.specs.Lists.{every, tabulate};
ghost use Rattle.rules.specs.Contract.{Whole};
ghost use Rattle.rules.specs.Snapshot.{in_row};
ghost use Rattle.table_view.specs.View.{memory, SoundTable, exporter_count, object_count, interface_count, set_count};
ghost use Rattle.snapshot_rows.specs.Writing.{Room, Wrote};
ghost use Rattle.snapshot_rows.specs.Rows.{exporter_bytes_at, object_bytes_at, interface_bytes_at, count_bytes_at, member_bytes_at, set_bytes_at, ObjectsSorted, row_count, row_bytes};

use crate::Section;
use table_columns::members::Members;
use table_view::find;

// Exporter i: OXID, remote-unknown IPID, list length, list.
fn put_exporter(words: &[u64], store: &[u8], i: usize, buffer: &mut [u8], at: usize) -> usize
    requires { SoundTable (memory words.now store.now) × (i < exporter_count words.now)
        × Room buffer.old at (exporter_bytes_at words.now store.now i) }
    ensures { Wrote buffer.old at (exporter_bytes_at words.now store.now i) buffer.new result }
{
    let oxid = find::oxid(words, i);
    let unknown = find::unknown(words, i);
    let list = find::list(words, store, i);
    fields::write_u64(buffer, at, oxid.0);
    fields::write_guid(buffer, at + 8, unknown);
    fields::write_u16(buffer, at + 24, list.len() as u16);
    fields::copy(buffer, at + 26, list);
    at + 26 + list.len()
}

// Object i: OID, OXID, no-ping mark, time last heard.
fn put_object(words: &[u64], i: usize, buffer: &mut [u8], at: usize) -> usize
    requires { Whole words.now × (i < object_count words.now) × Room buffer.old at (object_bytes_at words.now i) }
    ensures { Wrote buffer.old at (object_bytes_at words.now i) buffer.new result }
{
    let oid = find::oid(words, i);
    let exporter = find::object_exporter(words, i);
    fields::write_u64(buffer, at, oid.0);
    fields::write_u64(buffer, at + 8, exporter.0);
    buffer[at + 16] = u8::from(find::is_unpinged(words, i));
    fields::write_u64(buffer, at + 17, find::heard(words, i));
    at + 25
}

// The counts of interface i: the public one, and those of clients 0 to 7.
fn put_counts(words: &[u64], i: usize, buffer: &mut [u8], at: usize) -> usize
    requires { Whole words.now × (i < interface_count words.now)
        × Room buffer.old at (in_row (count_bytes_at words.now i) (tabulate 9 (λ k. k))) }
    ensures { Wrote buffer.old at (in_row (count_bytes_at words.now i) (tabulate 9 (λ k. k))) buffer.new result }
{
    let mut next = at;
    for k in 0..9 {
        fields::write_u32(buffer, next, find::count(words, i, k));
        next += 4;
    }
    next
}

// Interface i: IPID, IID, OID, counts.
fn put_interface(words: &[u64], i: usize, buffer: &mut [u8], at: usize) -> usize
    requires { Whole words.now × (i < interface_count words.now) × Room buffer.old at (interface_bytes_at words.now i) }
    ensures { Wrote buffer.old at (interface_bytes_at words.now i) buffer.new result }
{
    let object = find::interface_object(words, i);
    fields::write_guid(buffer, at, find::ipid(words, i));
    fields::write_guid(buffer, at + 16, find::iid(words, i));
    fields::write_u64(buffer, at + 32, object.0);
    put_counts(words, i, buffer, at + 40)
}

// The OID of the object at row j, where it is a member.
fn put_member(words: &[u64], members: Members, j: usize, buffer: &mut [u8], at: usize) -> usize
    requires { Whole words.now × (j < object_count words.now) × Room buffer.old at (member_bytes_at words.now members j) }
    ensures { Wrote buffer.old at (member_bytes_at words.now members j) buffer.new result }
{
    if !members.has(j) {
        return at;
    }
    let oid = find::oid(words, j);
    fields::write_u64(buffer, at, oid.0);
    at + 8
}

// The OIDs of members, in the order of the objects' rows.
fn put_members(
    words: &[u64],
    members: Members,
    rows: &[usize],
    buffer: &mut [u8],
    at: usize,
) -> usize
    requires { Whole words.now × (every (λ j. ltb j (object_count words.now)) rows.now ≡ true)
        × Room buffer.old at (in_row (member_bytes_at words.now members) rows.now) }
    ensures { Wrote buffer.old at (in_row (member_bytes_at words.now members) rows.now) buffer.new result }
{
    let mut next = at;
    for row in rows {
        next = put_member(words, members, *row, buffer, next);
    }
    next
}

// Set i: number, sequence number, time of the last ping, number of members, their OIDs in the order of the objects' rows.
fn put_set(words: &[u64], rows: &[usize], i: usize, buffer: &mut [u8], at: usize) -> usize
    requires { ObjectsSorted words.now rows.now × (i < set_count words.now) × Room buffer.old at (set_bytes_at words.now i) }
    ensures { Wrote buffer.old at (set_bytes_at words.now i) buffer.new result }
{
    let number = find::set_number(words, i);
    let members = find::members(words, i);
    fields::write_u64(buffer, at, number.0);
    fields::write_u16(buffer, at + 8, find::sequence(words, i));
    fields::write_u64(buffer, at + 10, find::pinged(words, i));
    fields::write_u16(buffer, at + 18, members.size() as u16);
    put_members(words, members, rows, buffer, at + 20)
}

// Row i of a section. The objects' rows are given in rising order.
pub fn put_row(
    words: &[u64],
    store: &[u8],
    section: Section,
    objects: &[usize],
    i: usize,
    buffer: &mut [u8],
    at: usize,
) -> usize
    requires { SoundTable (memory words.now store.now) × ObjectsSorted words.now objects.now × (i < row_count section words.now)
        × Room buffer.old at (row_bytes section words.now store.now i) }
    ensures { Wrote buffer.old at (row_bytes section words.now store.now i) buffer.new result }
{
    match section {
        Section::Exporters => put_exporter(words, store, i, buffer, at),
        Section::Objects => put_object(words, i, buffer, at),
        Section::Interfaces => put_interface(words, i, buffer, at),
        Section::Sets => put_set(words, objects, i, buffer, at),
    }
}
