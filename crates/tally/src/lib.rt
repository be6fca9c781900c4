// The running tally of references.
#![tactic(auto)]

ghost use Rattle.std.specs.Prelude.{◌≡◌, ◌+◌, ◌%◌, ◌^◌};
ghost use Rattle.tally.specs.Tallies.{raised, wrapped};

// What was granted, what releases took, and what was run down: what an exporter's removal, a clock or a client's drop took of the held
// counts. Each modulo 2^64.
#[repr(C)]
#[derive(Clone, Copy)]
pub struct Tally {
    pub granted: u64,
    pub taken: u64,
    pub rundown: u64,
}

// The three numbers are raised in place.
pub fn raise(t: &mut Tally, granted: u64, taken: u64, rundown: u64)
    ensures { t.new ≡ wrapped (raised t.old granted taken rundown) }
{
    t.granted = t.granted.wrapping_add(granted);
    t.taken = t.taken.wrapping_add(taken);
    t.rundown = t.rundown.wrapping_add(rundown);
}

// The same of a tally by value.
pub fn counted(mut t: Tally, granted: u64, taken: u64, rundown: u64) -> Tally
    ensures { result ≡ wrapped (raised t granted taken rundown) }
{
    raise(&mut t, granted, taken, rundown);
    t
}
