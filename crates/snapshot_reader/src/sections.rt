// The sections of a snapshot, read into a table.
ghost use Rattle.std.specs.Prelude.{◌≡◌, true, ◌≤◌, min, length, is_some};
ghost use Rattle.fields.specs.Fields.{field};
ghost use Rattle.rules.specs.Contract.{Whole};
ghost use Rattle.rules.specs.Swapping.{longest_snapshot};
ghost use Rattle.table_view.specs.View.{memory, view};
ghost use Rattle.snapshot_reader.specs.ReadRows.{fits};
ghost use Rattle.snapshot_reader.specs.ReadSections.{begun, SectionRead, TableRead};

use crate::rows;
use kinds::{SetId, limits};
use snapshot_rows::Section;

// A section from at on: its count, then its rows. Where it is read, the result is where what follows begins.
fn read_section(
    words: &mut [u64],
    store: &mut [u8],
    section: Section,
    s: &[u8],
    at: usize,
) -> Option<usize>
    requires { Whole words.old × Whole store.old × (at ≤ length s.now) × (length s.now ≤ longest_snapshot)
        × (fits section (view (memory words.old store.old)) ≡ true) }
    ensures { SectionRead section s.now at (view (memory words.old store.old)) result
        (view (memory words.new store.new)) }
{
    let n = fields::read_u16(s, at) as usize;
    let mut next = fields::within(s, at + 2);
    for _i in 0..n {
        next += rows::read_row(words, store, section, &s[next..])?;
    }
    Some(next)
}

// The four sections of rows, from at on, into a table without entries.
fn read_sections(words: &mut [u64], store: &mut [u8], s: &[u8], at: usize) -> Option<usize>
    requires { Whole words.old × Whole store.old × (length s.now ≤ longest_snapshot) × (at ≡ min 18 (length s.now))
        × (field s.now 0 2 ≡ 2) × (view (memory words.old store.old) ≡ begun s.now) }
    ensures { TableRead s.now (is_some result) (view (memory words.new store.new)) }
{
    let objects = read_section(words, store, Section::Exporters, s, at)?;
    let interfaces = read_section(words, store, Section::Objects, s, objects)?;
    let sets = read_section(words, store, Section::Interfaces, s, interfaces)?;
    read_section(words, store, Section::Sets, s, sets)
}

// The entries in bytes, into a table; false only where the bytes are no snapshot. Some that are none are read too.
pub fn read_table(words: &mut [u64], store: &mut [u8], s: &[u8]) -> bool
    requires { Whole words.old × Whole store.old }
    ensures { TableRead s.now result (view (memory words.new store.new)) }
{
    if limits::LONGEST_SNAPSHOT < s.len() {
        return false;
    }
    if fields::read_u16(s, 0) != 2 {
        return false;
    }
    table_edit::clear(words, fields::read_u64(s, 2));
    table_edit::set_next(words, SetId(fields::read_u64(s, 10)));
    read_sections(words, store, s, fields::within(s, 18)).is_some()
}
