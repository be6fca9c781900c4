// Members of a set of rows: a bit for each of 128 rows, in two words.
ghost use Rattle.std.specs.Prelude.{◌≡◌, ◌^◌, ◌<◌, ◌≤◌, length, ◌==◌, count_ones, nat_lt};
ghost use Rattle.lists.specs.Lists.{every};
ghost use Rattle.table_columns.specs.Members.{bit_of, has_member, member_rows, put_bit, cut_bit, MemberPut, Cut};

// Bit j of low is row j, and bit j of high is row 64 + j.
// Two words, as the table keeps them; so each function has a case for each word.
#[derive(Clone, Copy)]
pub struct Members {
    pub low: u64,
    pub high: u64,
}

// The word with bit k set to b.
fn with_bit(w: u64, k: usize, b: u64) -> u64
    requires { (k < 64) × (b < 2) }
    ensures { result ≡ put_bit w k b }
{
    let unit = 1u64 << k;
    ((w >> k) / 2 * 2 + b) * unit + w % unit
}

// The word without bit k: the higher bits move down by one.
fn cut_bit(w: u64, k: usize) -> u64
    requires { k < 64 }
    ensures { (result ≡ cut_bit w k) × (result < 2 ^ 63) }
{
    let unit = 1u64 << k;
    (w >> k) / 2 * unit + w % unit
}

// Bit k of a word is 1.
#[tactic(auto, unfolding(crate::specs::Members::bit_of))]
fn has_bit(w: u64, k: usize) -> bool
    requires { k < 64 }
    ensures { result ≡ bit_of w k }
{
    (w >> k) % 2 == 1
}

impl Members {
    // Row j is a member.
    pub fn has(self, j: usize) -> bool
        ensures { result ≡ has_member self j }
    {
        if j < 64 {
            return has_bit(self.low, j);
        }
        j < 128 && has_bit(self.high, j - 64)
    }

    // Makes row j a member, or no member; a row of 128 or more changes nothing.
    pub fn put(self, j: usize, member: bool) -> Members
        ensures { MemberPut j member self result }
    {
        let b = u64::from(member);
        if j < 64 {
            return Members {
                low: with_bit(self.low, j, b),
                ..self
            };
        }
        if j < 128 {
            return Members {
                high: with_bit(self.high, j - 64, b),
                ..self
            };
        }
        self
    }

    // Takes row k out: the rows above it move down by one.
    pub fn cut(self, k: usize) -> Members
        ensures { Cut k self result }
    {
        if k < 64 {
            return Members {
                low: self.high % 2 * 0x8000000000000000 + cut_bit(self.low, k),
                high: self.high / 2,
            };
        }
        if k < 128 {
            return Members {
                high: cut_bit(self.high, k - 64),
                ..self
            };
        }
        self
    }

    // Every member is below n.
    pub fn below(self, n: usize) -> bool
        ensures { result ≡ every (λ j. nat_lt j n) (member_rows self) }
    {
        if n < 64 {
            return self.high == 0 && self.low >> n == 0;
        }
        n >= 128 || self.high >> (n - 64) == 0
    }

    // The number of members: the ones of both words.
    pub fn size(self) -> usize
        ensures { result ≡ length (member_rows self) }
    {
        (self.low.count_ones() + self.high.count_ones()) as usize
    }
}
