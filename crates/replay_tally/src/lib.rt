// The tally after a call, by the table's sums before and after it.
#![tactic(auto)]

ghost use Rattle.std.specs.Prelude.{◌≡◌, true, ◌+◌, ◌-◌, ◌^◌, ◌<◌};
ghost use Rattle.fields.specs.Fields.{field};
ghost use Rattle.rules.specs.Contract.{Whole};
ghost use Rattle.table_view.specs.View.{interfaces_of};
ghost use Rattle.tally.specs.Tallies.{wrapped};
ghost use Rattle.balance.specs.Balance.{counts_held};
ghost use Rattle.balance.specs.Sides.{beginning, moved};
ghost use Rattle.replay_tally.specs.Sums.{side_as, side_from, summed_as, SumTold};

use tally::Tally;

// The difference; 0 where b is the larger.
fn less(a: u64, b: u64) -> u64
    ensures { result ≡ a - b }
{
    if a < b {
        return 0;
    }
    a - b
}

// The number that the call of a code moves: 1 taken, 2 run down, 3 all (a reset or a load), else granted.
fn side(code: u8) -> u8
    ensures { side_as code ≡ side_from result }
{
    if code == 6 {
        return 1;
    }
    if code == 9 {
        return 1;
    }
    if code == 2 {
        return 2;
    }
    if code == 7 {
        return 2;
    }
    if code == 12 {
        return 2;
    }
    if code == 0 {
        return 3;
    }
    if code == 19 {
        return 3;
    }
    0
}

// The table's sum after an accepted call that grants alone, and no list: old, and what the call's section says.
fn granted_sum(call: &[u8], code: u8, old: u64) -> u64
    requires { summed_as code call.now old < 2 ^ 64 }
    ensures { result ≡ summed_as code call.now old }
{
    if code == 5 {
        return old + (fields::read_u32(call, 21) as u64 + fields::read_u32(call, 25) as u64);
    }
    if code == 3 {
        return old + fields::read_u32(call, 49) as u64;
    }
    if code == 4 {
        return old + fields::read_u32(call, 41) as u64;
    }
    old
}

// The table's sum after an accepted call that takes, runs down or begins anew: of a release by what it took, as a recorded answer that
// is ours says.
fn taken_sum(words: &[u64], answer: &[u8], code: u8, agrees: bool, old: u64) -> u64
    requires { Whole words.now
        × (code ≡ 6 → agrees ≡ true → counts_held (interfaces_of words.now) + (field answer.now 8 8 + field answer.now 16 8) ≡ old) }
    ensures { result ≡ counts_held (interfaces_of words.now) }
{
    if code != 6 {
        return balance::held(words);
    }
    if !agrees {
        return balance::held(words);
    }
    old - fields::read_u64(answer, 8) - fields::read_u64(answer, 16)
}

// The table's sum after the call of a code, by the sum before it where that tells.
pub fn sum_after(
    words: &[u64],
    call: &[u8],
    answer: &[u8],
    code: u8,
    agrees: bool,
    accepted: bool,
    old: u64,
) -> u64
    requires { Whole words.now × SumTold code call.now answer.now agrees accepted old (counts_held (interfaces_of words.now)) }
    ensures { result ≡ counts_held (interfaces_of words.now) }
{
    if !accepted {
        return old;
    }
    if side(code) != 0 {
        return taken_sum(words, answer, code, agrees, old);
    }
    if code == 8 {
        return balance::held(words);
    }
    granted_sum(call, code, old)
}

// The tally after the call of a code; old and new are the table's sums.
pub fn tally_after(tally: Tally, code: u8, accepted: bool, old: u64, new: u64) -> Tally
    ensures { result ≡ wrapped (moved (side_as code) accepted old new tally) }
{
    let way = side(code);
    if way == 1 {
        return tally::counted(tally, 0, less(old, new), 0);
    }
    if way == 2 {
        return tally::counted(tally, 0, 0, less(old, new));
    }
    if way == 3 {
        return started(tally, accepted, new);
    }
    tally::counted(tally, less(new, old), 0, 0)
}

// After a reset or a load: where it is accepted, what the table holds is granted.
fn started(tally: Tally, accepted: bool, new: u64) -> Tally
    ensures { result ≡ wrapped (moved beginning accepted 0 new tally) }
{
    if accepted {
        let none = Tally {
            granted: 0,
            taken: 0,
            rundown: 0,
        };
        return tally::counted(none, new, 0, 0);
    }
    tally::counted(tally, 0, 0, 0)
}
