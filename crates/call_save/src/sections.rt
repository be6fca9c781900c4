// The sections of a snapshot: the number of entries in two bytes, and the entries in rising order.
ghost use Rattle.std.specs.Prelude.{[], ◌∷◌};
ghost use Rattle.fields.specs.Fields.{encode};
ghost use Rattle.rules.specs.Contract.{Whole};
ghost use Rattle.rules.specs.Snapshot.{sorted, section, snapshot_bytes};
ghost use Rattle.table_view.specs.View.{memory, view, SoundTable, clock_of, next_of};
ghost use Rattle.snapshot_rows.specs.Writing.{Room, Wrote};
ghost use Rattle.snapshot_rows.specs.Keys.{RowsInOrder};
ghost use Rattle.snapshot_rows.specs.Rows.{ObjectsSorted};
ghost use Rattle.call_save.specs.Sections.{section_of};

use kinds::limits;
use snapshot_rows::{Section, order, rows};
use table_view::find;

// Two numbers: the clock and the next set number.
fn put_numbers(words: &[u64], buffer: &mut [u8], at: usize) -> usize
    requires { Whole words.now × Room buffer.old at (section (encode 8) (clock_of words.now ∷ next_of words.now ∷ [])) }
    ensures { Wrote buffer.old at (section (encode 8) (clock_of words.now ∷ next_of words.now ∷ [])) buffer.new result }
{
    fields::write_u16(buffer, at, 2);
    fields::write_u64(buffer, at + 2, find::clock(words));
    let next = find::next_set(words);
    fields::write_u64(buffer, at + 10, next.0);
    at + 18
}

// A section: the number of its rows, which are given in rising order, and the rows.
fn put_section(
    words: &[u64],
    store: &[u8],
    section: Section,
    objects: &[usize],
    rows: &[usize],
    buffer: &mut [u8],
    at: usize,
) -> usize
    requires { SoundTable (memory words.now store.now) × ObjectsSorted words.now objects.now × RowsInOrder section words.now store.now rows.now
        × Room buffer.old at (section_of section (sorted (view (memory words.now store.now)))) }
    ensures { Wrote buffer.old at (section_of section (sorted (view (memory words.now store.now)))) buffer.new result }
{
    fields::write_u16(buffer, at, rows.len() as u16);
    let mut next = at + 2;
    for row in rows {
        next = rows::put_row(words, store, section, objects, *row, buffer, next);
    }
    next
}

// A section whose rows are yet to be sorted.
fn put_sorted(
    words: &[u64],
    store: &[u8],
    section: Section,
    objects: &[usize],
    buffer: &mut [u8],
    at: usize,
) -> usize
    requires { SoundTable (memory words.now store.now) × ObjectsSorted words.now objects.now
        × Room buffer.old at (section_of section (sorted (view (memory words.now store.now)))) }
    ensures { Wrote buffer.old at (section_of section (sorted (view (memory words.now store.now)))) buffer.new result }
{
    let mut rows = [0usize; limits::INTERFACE_PLACES];
    let n = order::sort_rows(words, section, &mut rows);
    put_section(words, store, section, objects, &rows[..n], buffer, at)
}

// All sections; the objects' rows are given in rising order.
fn put_entries(words: &[u64], store: &[u8], objects: &[usize], buffer: &mut [u8]) -> usize
    requires { SoundTable (memory words.now store.now) × ObjectsSorted words.now objects.now
        × Room buffer.old 0 (snapshot_bytes (view (memory words.now store.now))) }
    ensures { Wrote buffer.old 0 (snapshot_bytes (view (memory words.now store.now))) buffer.new result }
{
    let at = put_numbers(words, buffer, 0);
    let at = put_sorted(words, store, Section::Exporters, objects, buffer, at);
    let at = put_section(words, store, Section::Objects, objects, objects, buffer, at);
    let at = put_sorted(words, store, Section::Interfaces, objects, buffer, at);
    put_sorted(words, store, Section::Sets, objects, buffer, at)
}

// The snapshot at the front of a buffer that has room for it.
pub fn put_snapshot(words: &[u64], store: &[u8], buffer: &mut [u8]) -> usize
    requires { SoundTable (memory words.now store.now)
        × Room buffer.old 0 (snapshot_bytes (view (memory words.now store.now))) }
    ensures { Wrote buffer.old 0 (snapshot_bytes (view (memory words.now store.now))) buffer.new result }
{
    let mut rows = [0usize; limits::INTERFACE_PLACES];
    let n = order::sort_rows(words, Section::Objects, &mut rows);
    put_entries(words, store, &rows[..n], buffer)
}
