// The numbers of live entries, and of a set's members.
ghost use Rattle.std.specs.Prelude.{◌≡◌, Ok};
ghost use Rattle.rules.specs.Calls.{Call, Look};
ghost use Rattle.table_view.specs.View.{memory, SoundTable, Stepped};
ghost use Rattle.call_look.specs.Replies.{census_reply, live_counts, members_reply, member_count};

use kinds::{Refusal, SetId};
use table_view::find;

// The live numbers of the four kinds.
#[derive(Clone, Copy)]
pub struct Live {
    pub exporters: usize,
    pub objects: usize,
    pub interfaces: usize,
    pub sets: usize,
}

// The same with the answer number, as C gets it.
#[repr(C)]
#[derive(Clone, Copy)]
pub struct LiveCounts {
    pub answer: u32,
    pub exporters: usize,
    pub objects: usize,
    pub interfaces: usize,
    pub sets: usize,
}

impl From<Result<Live, Refusal>> for LiveCounts {
    ghost from_gives = { λ r x. x ≡ live_counts r };

    fn from(r: Result<Live, Refusal>) -> LiveCounts {
        match r {
            Ok(live) => LiveCounts {
                answer: 0,
                exporters: live.exporters,
                objects: live.objects,
                interfaces: live.interfaces,
                sets: live.sets,
            },
            Err(why) => LiveCounts {
                answer: u32::from(why),
                exporters: 0,
                objects: 0,
                interfaces: 0,
                sets: 0,
            },
        }
    }
}

// The number of a set's members, as C gets it.
#[repr(C)]
#[derive(Clone, Copy)]
pub struct MemberCount {
    pub answer: u32,
    pub count: usize,
}

impl From<Result<usize, Refusal>> for MemberCount {
    ghost from_gives = { λ r x. x ≡ member_count r };

    fn from(r: Result<usize, Refusal>) -> MemberCount {
        match r {
            Ok(count) => MemberCount {
                answer: 0,
                count: count,
            },
            Err(why) => MemberCount {
                answer: u32::from(why),
                count: 0,
            },
        }
    }
}

// The call on a sound table, which is never refused.
pub fn census_step(words: &[u64], store: &[u8]) -> Live
    requires { SoundTable (memory words.now store.now) }
    ensures { Stepped (Call.looking Look.census) (memory words.now store.now) (census_reply (live_counts (Ok result)))
        (memory words.now store.now) }
{
    Live {
        exporters: find::exporter_count(words),
        objects: find::object_count(words),
        interfaces: find::interface_count(words),
        sets: find::set_count(words),
    }
}

// The call on a sound table.
pub fn members_step(words: &[u64], store: &[u8], set: SetId) -> Result<usize, Refusal>
    requires { SoundTable (memory words.now store.now) }
    ensures { Stepped (Call.looking (Look.members set.0)) (memory words.now store.now) (members_reply (member_count result))
        (memory words.now store.now) }
{
    let i = find::set_row(words, set);
    if find::set_count(words) <= i {
        return Err(Refusal::NoSet);
    }
    Ok(find::members(words, i).size())
}
