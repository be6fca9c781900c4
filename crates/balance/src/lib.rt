// What each call grants, takes and runs down, and that a tally of it balances: definitions (specs/) and proofs. The table's sum.
#![tactic(auto)]

ghost use Rattle.std.specs.Prelude.{◌≡◌, ◌*◌, ◌^◌, ◌<◌, ◌≤◌, get_or};
ghost use Rattle.rules.specs.Rules.{no_interface};
ghost use Rattle.rules.specs.Contract.{Whole};
ghost use Rattle.table_view.specs.View.{interface_count, interfaces_of, Holds};
ghost use Rattle.balance.specs.Balance.{total, held_in};

use table_view::find;

// The counts of interface i, summed.
fn held_at(words: &[u64], i: usize) -> u64
    requires { Whole words.now × (i < interface_count words.now) }
    ensures { (result ≡ total (get_or (interfaces_of words.now) i no_interface).counts) × (result ≤ 9 * 2 ^ 32) }
{
    let mut sum = 0;
    for k in 0..9 {
        sum += u64::from(find::count(words, i, k));
    }
    sum
}

// All counts of the table, summed.
pub fn held(words: &[u64]) -> u64
    requires { Whole words.now }
    ensures { Holds (λ e. result ≡ held_in e) words.now × (result < 2 ^ 44) }
{
    let n = find::interface_count(words);
    let mut sum = 0;
    for i in 0..n {
        sum += held_at(words, i);
    }
    sum
}
