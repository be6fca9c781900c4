// Pings: the sets of objects that a client keeps alive.
#![tactic(auto)]

ghost use Rattle.std.specs.Prelude.{◌≡◌, ℕ, ◌-◌, ◌^◌, ◌<◌, true, List, [], length, get_or};
ghost use Rattle.kinds.specs.Answers.{answer_number};
ghost use Rattle.kinds.specs.Refusals.{order};
ghost use Rattle.rules.specs.Entries.{oids, object_row, set_places};
ghost use Rattle.rules.specs.Sound.{proper};
ghost use Rattle.rules.specs.Rules.{stale_sequence, ping_set_number, heard_now};
ghost use Rattle.rules.specs.Calls.{Call, Edit, numbered};
ghost use Rattle.rules.specs.PingRows.{pinged_row};
ghost use Rattle.table_view.specs.View.{object_count, set_count, memory, view, SoundTable, Stepped, Holds, oids_of, members_below, next_of, member_values};
ghost use Rattle.table_edit.specs.Edits.{Became};
ghost use Rattle.call_ping.specs.Replies.{ping_reply, pinged};
ghost use Rattle.call_ping.specs.Pinging.{heard_row, ping_set_row, with_ping_set, is_ping_set, early_rows, late_rows, oids_in, OneListed, AllListed, MembersBefore, updated_to, Reduced};
ghost use Rattle.rules.specs.Contract.{Whole};

use kinds::{Oid, Refusal, SetId, answer, limits};
use table_columns::buckets;
use table_columns::members::Members;
use table_view::find;

// Object i is heard now, where it is a member.
fn hear_row(words: &mut [u64], members: Members, i: usize)
    requires { Whole words.old × (i < object_count words.old) }
    ensures { Became (heard_row members i) words.old words.new }
{
    if members.has(i) {
        let clock = find::clock(words);
        table_edit::set_heard(words, i, clock);
    }
}

// The members are heard now.
fn hear(words: &mut [u64], members: Members)
    requires { Whole words.old × (proper (oids_of words.old) ≡ true) }
    ensures { Became (λ e. heard_now (member_values (oids e) members) e) words.old words.new }
{
    for i in (0..find::object_count(words)).rev() {
        hear_row(words, members, i);
    }
}

// Set i is pinged now, and its members are heard.
fn ping_row(words: &mut [u64], i: usize)
    requires { Whole words.old × (i < set_count words.old)
        × (proper (oids_of words.old) ≡ true) }
    ensures { Became (pinged_row i) words.old words.new }
{
    let members = find::members(words, i);
    let clock = find::clock(words);
    hear(words, members);
    table_edit::set_pinged(words, i, clock);
}

// The call on a sound table.
pub fn simple_ping_step(words: &mut [u64], store: &[u8], set: SetId) -> Result<(), Refusal>
    requires { SoundTable (memory words.old store.now) }
    ensures { Stepped (Call.editing (Edit.simple_ping set.0)) (memory words.old store.now)
        (numbered (answer_number result)) (memory words.new store.now) }
{
    if set.0 == 0 {
        return Err(Refusal::NoSet);
    }
    let i = find::set_row(words, set);
    if find::set_count(words) <= i {
        return Err(Refusal::NoSet);
    }
    ping_row(words, i);
    Ok(())
}

// A sequence number is stale: it is the last one, or more than 32,767 past it, modulo 65,536.
fn is_stale(last: u16, new: u16) -> bool
    ensures { result ≡ stale_sequence last new }
{
    let ahead = new.wrapping_sub(last);
    ahead == 0 || 32767 < ahead
}

// The number of a complex ping before an id is looked at, by the lengths of its lists: 10; of a set other than 0: 11; 12.
fn early_answer(
    words: &[u64],
    set: SetId,
    sequence: u16,
    adds: usize,
    deletes: usize,
) -> Result<(), Refusal>
    requires { Whole words.now }
    ensures { Holds (λ e. answer_number result ≡ order (early_rows set.0 sequence adds deletes e)) words.now }
{
    if answer::MOST_LISTED < adds {
        return Err(Refusal::TooMany);
    }
    if answer::MOST_LISTED < deletes {
        return Err(Refusal::TooMany);
    }
    if set.0 == 0 {
        return Ok(());
    }
    let i = find::set_row(words, set);
    if find::set_count(words) <= i {
        return Err(Refusal::NoSet);
    }
    if is_stale(find::sequence(words, i), sequence) {
        return Err(Refusal::Stale);
    }
    Ok(())
}

// The rest of it, once every id to be added is live: of set 0: 9; 18.
fn late_answer(words: &[u64], set: SetId) -> Result<(), Refusal>
    requires { Whole words.now }
    ensures { Holds (λ e. answer_number result ≡ order (late_rows set.0 e)) words.now }
{
    if set.0 != 0 {
        return Ok(());
    }
    if limits::SET_PLACES <= find::set_count(words) {
        return Err(Refusal::NoPlace);
    }
    if find::next_set(words).0 == u64::MAX {
        return Err(Refusal::SetsUsedUp);
    }
    Ok(())
}

// OIDs that a complex ping lists: numbers, or eight bytes for each, little-endian, in any place.
trait Listed {
    ghost oids: { Self → List ℕ };

    fn count(&self) -> usize
        ensures { result ≡ length (oids self.now) };

    fn oid(&self, k: usize) -> Oid
        requires { k < length (oids self.now) }
        ensures { result.0 ≡ get_or (oids self.now) k 0 };
}

#[derive(Clone, Copy)]
struct Numbers<'a>(&'a [u64]);

impl<'a> Listed for Numbers<'a> {
    ghost oids = { λ s. s.0.now };

    fn count(&self) -> usize {
        self.0.len()
    }

    fn oid(&self, k: usize) -> Oid {
        Oid(self.0[k])
    }
}

#[derive(Clone, Copy)]
struct Bytes<'a>(&'a [u8]);

impl<'a> Listed for Bytes<'a> {
    ghost oids = { λ s. oids_in s.0.now };

    fn count(&self) -> usize {
        self.0.len() / 8
    }

    fn oid(&self, k: usize) -> Oid {
        Oid(fields::read_u64(self.0, 8 * k))
    }
}

// Lists with fewer OIDs are not worth hints.
const FEW: usize = 8;

// Hints at the rows of the objects, where a list is not short.
fn hint_listed(words: &[u64], hints: &mut [u8; buckets::BUCKETS], adds: usize, deletes: usize)
    requires { Whole words.now }
{
    if FEW <= adds || FEW <= deletes {
        find::hint_objects(words, hints);
    }
}

// The row of the object with an OID, as `find::object_row` gives it; a row is tried first, which may be any number.
fn object_row(words: &[u64], hint: u8, oid: Oid) -> usize
    requires { Whole words.now × (proper (oids_of words.now) ≡ true) }
    ensures { Holds (λ e. result ≡ object_row e oid.0) words.now }
{
    let row = hint as usize;
    if row < find::object_count(words) {
        let there = find::oid(words, row);
        if oid == there {
            return row;
        }
    }
    find::object_row(words, oid)
}

// The members with the object of one more OID, or without it; None where one to be added is not live.
fn update_member(
    words: &[u64],
    hints: &[u8; buckets::BUCKETS],
    members: Members,
    oid: Oid,
    member: bool,
) -> Option<Members>
    requires { Whole words.now × (proper (oids_of words.now) ≡ true) }
    ensures { Holds (λ e. OneListed «member» (oids e) oid.0 members result) words.now }
{
    let b = buckets::of_word(oid.0);
    let row = object_row(words, hints[b], oid);
    if row < find::object_count(words) {
        return Some(members.put(row, member));
    }
    if member { None } else { Some(members) }
}

// The same of the OIDs of a list.
fn update_members<L: Listed>(
    words: &[u64],
    hints: &[u8; buckets::BUCKETS],
    before: Members,
    listed: &L,
    member: bool,
) -> Option<Members>
    requires { Whole words.now × (proper (oids_of words.now) ≡ true) }
    ensures { Holds (λ e. AllListed «member» (oids e) (L.oids listed.now) before result) words.now }
{
    let mut members = before;
    for k in 0..listed.count() {
        members = update_member(words, hints, members, listed.oid(k), member)?;
    }
    Some(members)
}

// The members of the set that a complex ping is about; set 0 has none.
fn members_before(words: &[u64], set: SetId) -> Members
    requires { Whole words.now × (is_ping_set set.0 (view (memory words.now [])) ≡ true)
        × (members_below words.now ≡ true) }
    ensures { Holds (λ e. MembersBefore set.0 e result) words.now }
{
    if set.0 == 0 {
        return Members { low: 0, high: 0 };
    }
    find::members(words, find::set_row(words, set))
}

// Set i gets a sequence number and members.
fn update_set(words: &mut [u64], i: usize, sequence: u16, members: Members)
    requires { Whole words.old × (i < set_count words.old) }
    ensures { Became (updated_to i sequence members) words.old words.new }
{
    table_edit::set_members(words, i, members);
    table_edit::set_sequence(words, i, sequence);
}

// The number of the set that a complex ping is about: set 0 stands for the set that it makes.
fn ping_set_number(words: &[u64], set: SetId) -> SetId
    requires { Whole words.now }
    ensures { result.0 ≡ ping_set_number set.0 (next_of words.now) }
{
    if set.0 == 0 {
        return find::next_set(words);
    }
    set
}

// The row of the set that a complex ping is about; for set 0 a set is made.
fn ping_set_row(words: &mut [u64], set: SetId) -> usize
    requires { Whole words.old × (set.0 ≡ 0 → (set_count words.old < set_places) × (next_of words.old < 2 ^ 64 - 1)) }
    ensures { Holds (λ e. result ≡ ping_set_row set.0 e) words.old
        × Became (with_ping_set set.0) words.old words.new }
{
    if set.0 == 0 {
        let n = find::set_count(words);
        table_edit::append_set(words);
        return n;
    }
    find::set_row(words, set)
}

// The number of the set that was pinged, and the backoff factor, as C gets them.
#[repr(C)]
#[derive(Clone, Copy)]
pub struct Pinged {
    pub answer: u32,
    pub set: SetId,
    pub backoff: u16,
}

impl From<Result<SetId, Refusal>> for Pinged {
    ghost from_gives = { λ r x. x ≡ pinged r };

    fn from(r: Result<SetId, Refusal>) -> Pinged {
        match r {
            Ok(set) => Pinged {
                answer: 0,
                set: set,
                backoff: 0,
            },
            Err(why) => Pinged {
                answer: u32::from(why),
                set: SetId(0),
                backoff: 0,
            },
        }
    }
}

// The call on a sound table.
pub fn complex_ping_step(
    words: &mut [u64],
    store: &[u8],
    set: SetId,
    sequence: u16,
    adds: &[u64],
    deletes: &[u64],
) -> Result<SetId, Refusal>
    requires { SoundTable (memory words.old store.now) }
    ensures { Stepped (Call.editing (Edit.complex_ping set.0 sequence adds.now deletes.now))
        (memory words.old store.now) (ping_reply (pinged result)) (memory words.new store.now) }
{
    ping_of(
        words,
        store,
        set,
        sequence,
        &Numbers(adds),
        &Numbers(deletes),
    )
}

// The same of OIDs in bytes, eight for each, little-endian, in any place.
pub fn complex_ping_bytes_step(
    words: &mut [u64],
    store: &[u8],
    set: SetId,
    sequence: u16,
    adds: &[u8],
    deletes: &[u8],
) -> Result<SetId, Refusal>
    requires { SoundTable (memory words.old store.now) }
    ensures { Stepped (Call.editing (Edit.complex_ping set.0 sequence (oids_in adds.now) (oids_in deletes.now)))
        (memory words.old store.now) (ping_reply (pinged result)) (memory words.new store.now) }
{
    ping_of(words, store, set, sequence, &Bytes(adds), &Bytes(deletes))
}

// The same of OIDs that are listed in any way.
fn ping_of<L: Listed>(
    words: &mut [u64],
    store: &[u8],
    set: SetId,
    sequence: u16,
    adds: &L,
    deletes: &L,
) -> Result<SetId, Refusal>
    requires { SoundTable (memory words.old store.now) }
    ensures { Stepped (Call.editing (Edit.complex_ping set.0 sequence (L.oids adds.now) (L.oids deletes.now)))
        (memory words.old store.now) (ping_reply (pinged result)) (memory words.new store.now) }
{
    early_answer(words, set, sequence, adds.count(), deletes.count())?;
    let before = members_before(words, set);
    let mut hints = [0u8; buckets::BUCKETS];
    hint_listed(words, &mut hints, adds.count(), deletes.count());
    let Some(joined) = update_members(words, &hints, before, adds, true) else {
        return Err(Refusal::NoObject);
    };
    // An OID to be deleted need not be live.
    let left = update_members(words, &hints, joined, deletes, false).unwrap();
    ping_listed(words, store, set, sequence, left)
}

// The rest of it, by the members that are left of the lists.
fn ping_listed(
    words: &mut [u64],
    store: &[u8],
    set: SetId,
    sequence: u16,
    members: Members,
) -> Result<SetId, Refusal>
    requires { SoundTable (memory words.old store.now)
        × (is_ping_set set.0 (view (memory words.old store.now)) ≡ true) }
    ensures { (adds dels : List ℕ)
        → Reduced set.0 sequence adds dels (view (memory words.old store.now)) members
        → Stepped (Call.editing (Edit.complex_ping set.0 sequence adds dels)) (memory words.old store.now)
        (ping_reply (pinged result)) (memory words.new store.now) }
{
    late_answer(words, set)?;
    let pinged = ping_set_number(words, set);
    let i = ping_set_row(words, set);
    update_set(words, i, sequence, members);
    ping_row(words, i);
    Ok(pinged)
}
