// Rows that go: objects that do not stay, with their interfaces and memberships, and sets.
#![tactic(auto)]

ghost use Rattle.std.specs.Prelude.{◌≡◌, true, ◌<◌, get_or, eqb};
ghost use Rattle.lists.specs.Lists.{distinct, among};
ghost use Rattle.rules.specs.Rules.{no_object};
ghost use Rattle.rules.specs.Sound.{interface_objects_live};
ghost use Rattle.table_view.specs.View.{object_count, interface_count, set_count, Holds, oids_of, members_below};
ghost use Rattle.table_edit.specs.Edits.{Became};
ghost use Rattle.table_settle.specs.Leaving.{stays, without_leaving, objects_left, interfaces_left, sets_left, cleared, held_left};
ghost use Rattle.rules.specs.Contract.{Whole};
ghost use Rattle.table_settle.specs.declared.Leaving.TheVariants.{NoInterface};

use kinds::Oxid;
use table_columns::buckets;
use table_view::find;

// Why objects go: their exporter is removed, they have no interface, or they were not heard for too long at a time.
#[derive(Clone, Copy)]
pub enum Leaving {
    ExporterRemoved(Oxid),
    NoInterface,
    Unheard(u64),
}

// Whether an identifier is in a column; the row that is hinted at under its bucket is tried first. There may be no hints.
fn is_among(ids: &[u64], hints: &[u8], id: u64) -> bool
    ensures { result ≡ among ids.now id }
{
    if let Some(row) = hints.get(buckets::of_word(id)) {
        if ids.get(*row as usize) == Some(&id) {
            return true;
        }
    }
    table_columns::has(ids, id)
}

// Whether object i stays.
fn is_staying(words: &[u64], i: usize, why: Leaving, hints: &[u8]) -> bool
    requires { Whole words.now × (i < object_count words.now) }
    ensures { Holds (λ e. result ≡ stays why e (get_or e.objects i no_object)) words.now }
{
    match why {
        Leaving::ExporterRemoved(x) => find::object_exporter(words, i) != x,
        Leaving::NoInterface => is_among(
            find::interface_objects(words),
            hints,
            find::oid(words, i).0,
        ),
        Leaving::Unheard(t) => find::is_heard_within(words, i, t),
    }
}

// Takes the objects out that do not stay. The four loops by which rows go stay apart: a trait that they share, with its law, and an impl for each are longer.
fn drop_objects(words: &mut [u64], why: Leaving, hints: &[u8])
    requires { Whole words.old × (members_below words.old ≡ true)
        × (distinct eqb (oids_of words.old) ≡ true) }
    ensures { Became (λ e. objects_left (stays why e) e) words.old words.new
        × (members_below words.new ≡ true) }
{
    for i in (0..find::object_count(words)).rev() {
        if !is_staying(words, i, why, hints) {
            table_edit::remove_object(words, i);
        }
    }
}

// Takes the interfaces out whose object is not live.
fn drop_interfaces(words: &mut [u64])
    requires { Whole words.old }
    ensures { Became interfaces_left words.old words.new }
{
    let mut hints = [0u8; buckets::BUCKETS];
    find::hint_objects(words, &mut hints);
    for i in (0..find::interface_count(words)).rev() {
        if !is_among(
            find::oids(words),
            &hints,
            find::interface_object(words, i).0,
        ) {
            table_edit::remove_interface(words, i);
        }
    }
}

// Objects that do not stay go, with their interfaces and memberships.
fn remove_hinted(words: &mut [u64], why: Leaving, hints: &[u8])
    requires { Whole words.old × (members_below words.old ≡ true)
        × (distinct eqb (oids_of words.old) ≡ true) × Holds (λ e. interface_objects_live e ≡ true) words.old }
    ensures { Became (without_leaving why) words.old words.new }
{
    let n = find::object_count(words);
    drop_objects(words, why, hints);
    if find::object_count(words) == n {
        return;
    }
    drop_interfaces(words);
}

// The same; no reason but a missing interface needs hints.
pub fn remove_leaving(words: &mut [u64], why: Leaving)
    requires { Whole words.old × (members_below words.old ≡ true)
        × (distinct eqb (oids_of words.old) ≡ true) × Holds (λ e. interface_objects_live e ≡ true) words.old }
    ensures { Became (without_leaving why) words.old words.new }
{
    remove_hinted(words, why, &[]);
}

// Objects without an interface go, with their memberships.
pub fn remove_unserved(words: &mut [u64])
    requires { Whole words.old × (members_below words.old ≡ true)
        × (distinct eqb (oids_of words.old) ≡ true) × Holds (λ e. interface_objects_live e ≡ true) words.old }
    ensures { Became (without_leaving NoInterface) words.old words.new }
{
    let mut hints = [0u8; buckets::BUCKETS];
    find::hint(find::interface_objects(words), &mut hints);
    remove_hinted(words, Leaving::NoInterface, &hints);
}

// Takes the sets out that were not pinged for too long at a time.
pub fn drop_sets(words: &mut [u64], time: u64)
    requires { Whole words.old }
    ensures { Became (sets_left time) words.old words.new }
{
    for i in (0..find::set_count(words)).rev() {
        if !find::is_pinged_within(words, i, time) {
            table_edit::remove_set(words, i);
        }
    }
}

// Takes the private references of a client off every interface.
pub fn clear_counts(words: &mut [u64], client: usize)
    requires { Whole words.old × (client < 8) }
    ensures { Became (cleared client) words.old words.new }
{
    for i in (0..find::interface_count(words)).rev() {
        table_edit::store_count(words, i, client + 1, 0);
    }
}

// Takes the interfaces out to which no reference is held.
pub fn drop_unheld(words: &mut [u64])
    requires { Whole words.old }
    ensures { Became held_left words.old words.new }
{
    for i in (0..find::interface_count(words)).rev() {
        if !find::is_held(words, i) {
            table_edit::remove_interface(words, i);
        }
    }
}
