// References taken and given back, and a client's dropped.
#![tactic(auto)]

ghost use Rattle.std.specs.Prelude.{◌≡◌, true, List, ℕ, ◌<◌};
ghost use Rattle.kinds.specs.Answers.{answer_number};
ghost use Rattle.lists.specs.Guids.{same_guid};
ghost use Rattle.rules.specs.Entries.{at_counts, interface_row};
ghost use Rattle.rules.specs.Sound.{proper};
ghost use Rattle.rules.specs.Calls.{Call, Edit, numbered};
ghost use Rattle.table_view.specs.View.{interface_count, memory, view, Holds, SoundTable, Stepped, oids_of, members_live_in};
ghost use Rattle.table_edit.specs.Edits.{Became, change_interface};
ghost use Rattle.call_references.specs.Replies.{release_reply, released};
ghost use Rattle.call_references.specs.Dropping.{Serves, InterfaceDropped};
ghost use Rattle.rules.specs.Contract.{Whole};

use kinds::{Guid, Oid, Refusal, limits};
use table_view::find;

// What a release took of each count, and how many interfaces and objects went: 0 or 1 of each.
#[derive(Clone, Copy)]
pub struct Taken {
    pub public: u32,
    pub private: u32,
    pub interfaces: u32,
    pub objects: u32,
}

// The same with the answer number, as C gets it.
#[repr(C)]
#[derive(Clone, Copy)]
pub struct Released {
    pub answer: u32,
    pub public: u32,
    pub private: u32,
    pub interfaces: u32,
    pub objects: u32,
}

impl From<Result<Taken, Refusal>> for Released {
    ghost from_gives = { λ r x. x ≡ released r };

    fn from(r: Result<Taken, Refusal>) -> Released {
        match r {
            Ok(taken) => Released {
                answer: 0,
                public: taken.public,
                private: taken.private,
                interfaces: taken.interfaces,
                objects: taken.objects,
            },
            Err(why) => Released {
                answer: u32::from(why),
                public: 0,
                private: 0,
                interfaces: 0,
                objects: 0,
            },
        }
    }
}

// The row of the interface with an IPID, as `find::interface_row` gives it; a row is tried first, which may be any number.
pub fn interface_row(words: &[u64], store: &[u8], hint: u8, ipid: Guid) -> usize
    requires { SoundTable (memory words.now store.now) }
    ensures { Holds (λ e. result ≡ interface_row e ipid) words.now }
{
    let row = hint as usize;
    if is_row(words, store, row, ipid) {
        return row;
    }
    find::interface_row(words, ipid)
}

// Whether the interface at a row, which may be any number, has an IPID.
pub fn is_row(words: &[u64], store: &[u8], row: usize, ipid: Guid) -> bool
    requires { SoundTable (memory words.now store.now) }
    ensures { result ≡ true → Holds (λ e. row ≡ interface_row e ipid) words.now }
{
    row < find::interface_count(words) && find::ipid(words, row) == ipid
}

// The call on a sound table.
pub fn add_step(
    words: &mut [u64],
    store: &[u8],
    client: u32,
    ipid: Guid,
    public: u32,
    private: u32,
) -> Result<(), Refusal>
    requires { SoundTable (memory words.old store.now) }
    ensures { Stepped (Call.editing (Edit.add client ipid public private)) (memory words.old store.now)
        (numbered (answer_number result)) (memory words.new store.now) }
{
    let i = find::interface_row(words, ipid);
    add_at(words, store, client, ipid, i, public, private)
}

// The same at the row that the IPID has.
pub fn add_at(
    words: &mut [u64],
    store: &[u8],
    client: u32,
    ipid: Guid,
    i: usize,
    public: u32,
    private: u32,
) -> Result<(), Refusal>
    requires { SoundTable (memory words.old store.now) × Holds (λ e. i ≡ interface_row e ipid) words.old }
    ensures { Stepped (Call.editing (Edit.add client ipid public private)) (memory words.old store.now)
        (numbered (answer_number result)) (memory words.new store.now) }
{
    if limits::LAST_CLIENT < client {
        return Err(Refusal::NoClient);
    }
    if find::interface_count(words) <= i {
        return Err(Refusal::NoInterface);
    }
    let counts = find::interface_counts(words, i, client as usize);
    let Some(more_public) = counts.public.checked_add(public) else {
        return Err(Refusal::CountOverflow);
    };
    let Some(more_private) = counts.private.checked_add(private) else {
        return Err(Refusal::CountOverflow);
    };
    set_counts(words, i, client, more_public, more_private);
    Ok(())
}

// The public count of interface i and the private one of a client.
fn set_counts(words: &mut [u64], i: usize, client: u32, public: u32, private: u32)
    requires { Whole words.old × (i < interface_count words.old) × (client < 8) }
    ensures { Became (change_interface i (at_counts client (λ (n : ℕ). public) (λ (n : ℕ). private)))
        words.old words.new }
{
    table_edit::store_count(words, i, 0, public);
    table_edit::store_count(words, i, client as usize + 1, private);
}

// Takes interface i of this object out, and with it the object where no interface names it then; answers whether it went.
fn drop_interface(words: &mut [u64], i: usize, object: Oid) -> u32
    requires { Whole words.old × (i < interface_count words.old)
        × (proper (oids_of words.old) ≡ true) × (members_live_in words.old ≡ true)
        × Holds (Serves i object.0) words.old }
    ensures { (s : List ℕ) → InterfaceDropped i object.0 (view (memory words.old s)) result (view (memory words.new s)) }
{
    table_edit::remove_interface(words, i);
    if find::is_served(words, object) {
        return 0;
    }
    let row = find::object_row(words, object);
    table_edit::remove_object(words, row);
    1
}

// The call on a sound table.
pub fn release_step(
    words: &mut [u64],
    store: &[u8],
    client: u32,
    ipid: Guid,
    public: u32,
    private: u32,
) -> Result<Taken, Refusal>
    requires { SoundTable (memory words.old store.now) }
    ensures { Stepped (Call.editing (Edit.release client ipid public private)) (memory words.old store.now)
        (release_reply (released result)) (memory words.new store.now) }
{
    let i = find::interface_row(words, ipid);
    release_at(words, store, client, ipid, i, public, private)
}

// The same at the row that the IPID has.
pub fn release_at(
    words: &mut [u64],
    store: &[u8],
    client: u32,
    ipid: Guid,
    i: usize,
    public: u32,
    private: u32,
) -> Result<Taken, Refusal>
    requires { SoundTable (memory words.old store.now) × Holds (λ e. i ≡ interface_row e ipid) words.old }
    ensures { Stepped (Call.editing (Edit.release client ipid public private)) (memory words.old store.now)
        (release_reply (released result)) (memory words.new store.now) }
{
    if limits::LAST_CLIENT < client {
        return Err(Refusal::NoClient);
    }
    if find::interface_count(words) <= i {
        return Err(Refusal::NoInterface);
    }
    let counts = find::interface_counts(words, i, client as usize);
    let taken_public = public.min(counts.public);
    let taken_private = private.min(counts.private);
    let left_public = counts.public - taken_public;
    let left_private = counts.private - taken_private;
    set_counts(words, i, client, left_public, left_private);
    if find::is_held(words, i) {
        return Ok(Taken {
            public: taken_public,
            private: taken_private,
            interfaces: 0,
            objects: 0,
        });
    }
    Ok(Taken {
        public: taken_public,
        private: taken_private,
        interfaces: 1,
        objects: drop_interface(words, i, counts.object),
    })
}

// The call on a sound table.
pub fn drop_client_step(words: &mut [u64], store: &[u8], client: u32) -> Result<(), Refusal>
    requires { SoundTable (memory words.old store.now) }
    ensures { Stepped (Call.editing (Edit.drop_client client)) (memory words.old store.now)
        (numbered (answer_number result)) (memory words.new store.now) }
{
    if limits::LAST_CLIENT < client {
        return Err(Refusal::NoClient);
    }
    let n = find::interface_count(words);
    table_settle::clear_counts(words, client as usize);
    table_settle::drop_unheld(words);
    if find::interface_count(words) == n {
        return Ok(());
    }
    table_settle::remove_unserved(words);
    Ok(())
}
