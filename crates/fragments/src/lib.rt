// References that come in over several packets: standard, handler and custom.
#![tactic(auto)]

ghost use Rattle.std.specs.Prelude.{◌≡◌, true, false, cond, not, ◌&&◌, ◌||◌, ℕ, ◌+◌, ◌*◌, ◌-◌, ◌/◌, ◌<◌, ◌≤◌, min, ltb, leb, length, set};
ghost use Rattle.kinds.specs.Answers.{answer_number};
ghost use Rattle.fields.specs.Fields.{field};
ghost use Rattle.references.specs.References.{is_custom, fixed_size};
ghost use Rattle.list_walk.specs.Walk.{next_mode, both_closed};
ghost use Rattle.fragments.specs.Rest.{seen_after, low_after, kept_after, over_after, waiting_after, walk_after, quiet_end, Quiet, quiet_after};
ghost use Rattle.fragments.specs.Fragments.{is_plain, is_nil_reference, none, form_of, in_tail, step_head, step, pushed, list_end, read_end, end_answer, ended, finished, final_after};

use kinds::Refusal;
use references::Reference;

// What is kept between fragments.
#[repr(C)]
#[derive(Clone, Copy)]
pub struct Fragments {
    // The first 84 bytes.
    pub head: [u8; 84],
    // How many bytes of the list or object data stand in the waiting buffer.
    pub kept: usize,
    // How many bytes came, counted up to 131,155.
    pub seen: u32,
    // The last byte.
    pub low: u8,
    // Where the walk over the list's words stands.
    pub mode: u8,
    // Whether more of the list or object data came than the waiting buffer holds.
    pub over: bool,
}

// A reference that was read, and the length of its list or object data.
#[derive(Clone, Copy)]
pub struct Whole {
    pub reference: Reference,
    pub length: usize,
}

// The same, or the number of a refusal with zeros, as C takes it.
#[repr(C)]
#[derive(Clone, Copy)]
pub struct Finished {
    pub answer: u32,
    pub reference: Reference,
    pub length: usize,
}

impl From<Result<Whole, Refusal>> for Finished {
    ghost from_gives = { λ found given. given ≡ ended found };

    fn from(found: Result<Whole, Refusal>) -> Finished {
        match found {
            Ok(whole) => Finished {
                answer: 0,
                reference: whole.reference,
                length: whole.length,
            },
            Err(why) => Finished {
                answer: u32::from(why),
                reference: Reference::zero(),
                length: 0,
            },
        }
    }
}

// Whether the flags name a form that is read here.
fn is_plain(f: u32) -> bool
    ensures { result ≡ is_plain f }
{
    if f == Reference::EXTENDED {
        return false;
    }
    references::is_form(f)
}

// The flags, where the header has come and is accepted.
fn form_of(head: &[u8], seen: u32) -> u32
    ensures { result ≡ form_of head.now seen }
{
    if seen < 24 {
        return 0;
    }
    if fields::read_u32(head, 0) != Reference::SIGNATURE {
        return 0;
    }
    let f = fields::read_u32(head, 4);
    if is_plain(f) { f } else { 0 }
}

// Whether byte number seen belongs to the list or the object data.
fn in_tail(form: u32, seen: u32) -> bool
    ensures { result ≡ in_tail form seen }
{
    form != 0 && references::fixed_size(form) <= seen as usize
}

fn next_head(head: [u8; 84], seen: u32, b: u8) -> [u8; 84]
    ensures { result ≡ step_head head seen b }
{
    let mut next = head;
    if seen < 84 {
        next[seen as usize] = b;
    }
    next
}

fn next_kept(inside: bool, kept: usize, n: usize) -> usize
    ensures { result ≡ cond (inside && ltb kept n) (kept + 1) kept }
{
    if inside && kept < n { kept + 1 } else { kept }
}

fn next_over(over: bool, inside: bool, kept: usize, n: usize) -> bool
    ensures { result ≡ (over || (inside && leb n kept)) }
{
    over || (inside && n <= kept)
}

// Stores a byte of the list or the object data where there is room.
fn keep(waiting: &mut [u8], inside: bool, kept: usize, b: u8)
    ensures { waiting.new ≡ cond (inside && ltb kept (length waiting.old)) (set waiting.old kept b) waiting.old }
{
    if inside && kept < waiting.len() {
        waiting[kept] = b;
    }
}

// The walk after one byte more of any kind.
fn walked(head: &[u8], form: u32, seen: u32, low: u8, mode: u8, b: u8) -> u8
    ensures { result ≡ cond (in_tail form seen && not (is_custom form))
        (next_mode (field head.now (fixed_size form) 2) (field head.now (fixed_size form + 2) 2) (seen - fixed_size form) low mode b)
        mode }
{
    if !in_tail(form, seen) {
        return mode;
    }
    if form == Reference::CUSTOM {
        return mode;
    }
    let start = references::fixed_size(form);
    let n = fields::read_u16(head, start);
    list_walk::next_mode(
        n,
        fields::read_u16(head, start + 2),
        seen - start as u32,
        low,
        mode,
        b,
    )
}

impl Fragments {
    // Before the first fragment.
    pub fn none() -> Fragments
        ensures { result ≡ none }
    {
        Fragments {
            head: [0; 84],
            kept: 0,
            seen: 0,
            low: 0,
            mode: 0,
            over: false,
        }
    }

    // One byte more.
    fn step(self, waiting: &mut [u8], b: u8) -> Fragments
        ensures { (result ≡ (step (record { state = self; waiting = waiting.old }) b).state)
            × (waiting.new ≡ (step (record { state = self; waiting = waiting.old }) b).waiting) }
    {
        let form = form_of(&self.head, self.seen);
        let mode = walked(&self.head, form, self.seen, self.low, self.mode, b);
        let inside = in_tail(form, self.seen);
        let n = waiting.len();
        keep(waiting, inside, self.kept, b);
        Fragments {
            head: next_head(self.head, self.seen, b),
            kept: next_kept(inside, self.kept, n),
            seen: list_walk::next_seen(self.seen),
            low: b,
            mode,
            over: next_over(self.over, inside, self.kept, n),
        }
    }

    // A fragment more, byte by byte.
    fn push_each(self, waiting: &mut [u8], fragment: &[u8]) -> Fragments
        ensures { (result ≡ (pushed (record { state = self; waiting = waiting.old }) fragment.now).state)
            × (waiting.new ≡ (pushed (record { state = self; waiting = waiting.old }) fragment.now).waiting) }
    {
        let mut state = self;
        for b in fragment {
            state = state.step(waiting, *b);
        }
        state
    }
}

// ---- a fragment at once, where the first 84 bytes have come

fn seen_after(seen: u32, m: usize) -> u32
    ensures { result ≡ seen_after seen m }
{
    if 131155 <= seen {
        return seen;
    }
    let left = 131155 - seen;
    if left as usize <= m {
        return 131155;
    }
    seen + m as u32
}

fn low_after(low: u8, bytes: &[u8]) -> u8
    ensures { result ≡ low_after low bytes.now }
{
    match bytes.last() {
        Some(b) => *b,
        None => low,
    }
}

fn kept_after(inside: bool, kept: usize, size: usize, m: usize) -> usize
    ensures { result ≡ kept_after inside kept size m }
{
    if inside {
        kept + m.min(size.saturating_sub(kept))
    } else {
        kept
    }
}

fn over_after(over: bool, inside: bool, kept: usize, size: usize, m: usize) -> bool
    ensures { result ≡ over_after over inside kept size m }
{
    over || (inside && size.saturating_sub(kept) < m)
}

// Stores bytes of the list or the object data as far as there is room.
fn keep_all(waiting: &mut [u8], inside: bool, kept: usize, bytes: &[u8])
    ensures { waiting.new ≡ waiting_after inside waiting.old kept bytes.now }
{
    if inside {
        let size = waiting.len();
        if kept < size {
            let m = list_walk::least(size - kept, bytes.len());
            fields::copy(waiting, kept, &bytes[0..m]);
        }
    }
}

// The walk of a form with a list.
fn walk_after(head: &[u8], form: u32, seen: u32, low: u8, mode: u8, bytes: &[u8]) -> u8
    requires { 84 ≤ seen }
    ensures { result ≡ walk_after head.now form seen low mode bytes.now }
{
    if form == 0 {
        return mode;
    }
    if form == Reference::CUSTOM {
        return mode;
    }
    let start = references::fixed_size(form);
    let n = fields::read_u16(head, start);
    let v = fields::read_u16(head, start + 2);
    list_walk::mode_after(n, v, start as u32, seen, low, mode, bytes)
}

// ---- a fragment

// How many of n bytes belong to the first 84.
fn early(seen: u32, n: usize) -> usize
    ensures { result ≤ n }
{
    if 84 <= seen {
        return 0;
    }
    list_walk::least((84 - seen) as usize, n)
}

// Up to this byte, bytes from number seen on change the head, the count and the last byte alone.
fn quiet_end(head: &[u8], seen: u32) -> usize
    ensures { result ≡ quiet_end head.now seen }
{
    if seen < 24 {
        return 24;
    }
    references::fixed_size(form_of(head, seen))
}

// How many of n bytes they are.
fn quiet(head: &[u8], seen: u32, n: usize) -> usize
    ensures { (result ≤ n) × Quiet head.now seen result }
{
    let end = quiet_end(head, seen);
    if end <= seen as usize {
        return 0;
    }
    list_walk::least(end - seen as usize, n)
}

impl Fragments {
    // Such bytes.
    fn push_quiet(self, bytes: &[u8]) -> Fragments
        requires { Quiet self.head self.seen (length bytes.now) }
        ensures { result ≡ quiet_after self bytes.now }
    {
        let mut head = self.head;
        fields::copy(&mut head, self.seen as usize, bytes);
        Fragments {
            head,
            kept: self.kept,
            seen: self.seen + bytes.len() as u32,
            low: low_after(self.low, bytes),
            mode: self.mode,
            over: self.over,
        }
    }

    // A fragment more behind the first 84 bytes.
    fn push_rest(self, waiting: &mut [u8], bytes: &[u8]) -> Fragments
        requires { 84 ≤ self.seen }
        ensures { (result ≡ (pushed (record { state = self; waiting = waiting.old }) bytes.now).state)
            × (waiting.new ≡ (pushed (record { state = self; waiting = waiting.old }) bytes.now).waiting) }
    {
        let form = form_of(&self.head, self.seen);
        let mode = walk_after(&self.head, form, self.seen, self.low, self.mode, bytes);
        let inside = form != 0;
        let n = waiting.len();
        keep_all(waiting, inside, self.kept, bytes);
        let m = bytes.len();
        Fragments {
            head: self.head,
            kept: kept_after(inside, self.kept, n, m),
            seen: seen_after(self.seen, m),
            low: low_after(self.low, bytes),
            mode,
            over: over_after(self.over, inside, self.kept, n, m),
        }
    }

    // Bytes behind those of the first 84 that came.
    fn push_late(self, waiting: &mut [u8], bytes: &[u8]) -> Fragments
        ensures { (result ≡ (pushed (record { state = self; waiting = waiting.old }) bytes.now).state)
            × (waiting.new ≡ (pushed (record { state = self; waiting = waiting.old }) bytes.now).waiting) }
    {
        if self.seen < 84 {
            return self.push_each(waiting, bytes);
        }
        self.push_rest(waiting, bytes)
    }

    // What is left of a fragment once the fixed fields have come: byte by byte up to the first 84, then at once.
    fn push_tail(self, waiting: &mut [u8], bytes: &[u8]) -> Fragments
        ensures { (result ≡ (pushed (record { state = self; waiting = waiting.old }) bytes.now).state)
            × (waiting.new ≡ (pushed (record { state = self; waiting = waiting.old }) bytes.now).waiting) }
    {
        let m = early(self.seen, bytes.len());
        let state = self.push_each(waiting, &bytes[0..m]);
        state.push_late(waiting, &bytes[m..])
    }

    // The header, the fixed fields behind it, whose form is known once it has come, and what follows.
    fn push_first(self, waiting: &mut [u8], bytes: &[u8]) -> Fragments
        ensures { (result ≡ (pushed (record { state = self; waiting = waiting.old }) bytes.now).state)
            × (waiting.new ≡ (pushed (record { state = self; waiting = waiting.old }) bytes.now).waiting) }
    {
        let mut state = self;
        let mut at = 0;
        for _ in 0..2 {
            let m = quiet(&state.head, state.seen, bytes.len() - at);
            let end = at + m;
            state = state.push_quiet(&bytes[at..end]);
            at = end;
        }
        state.push_tail(waiting, &bytes[at..])
    }

    // A fragment more. What belongs to the list or the object data is kept in the waiting buffer as far as there is room.
    pub fn push(self, waiting: &mut [u8], fragment: &[u8]) -> Fragments
        ensures { (result ≡ (pushed (record { state = self; waiting = waiting.old }) fragment.now).state)
            × (waiting.new ≡ (pushed (record { state = self; waiting = waiting.old }) fragment.now).waiting) }
    {
        if 84 <= self.seen {
            return self.push_rest(waiting, fragment);
        }
        self.push_first(waiting, fragment)
    }
}

// ---- the end

// Whether the n words of a list were two parts.
fn both_closed(n: u32, v: u32, mode: u8) -> bool
    ensures { result ≡ both_closed n v mode }
{
    if v < n {
        return mode == 3;
    }
    if n == 0 {
        return v == 0;
    }
    false
}

// The refusals of a list of which t bytes came.
fn list_end(head: &[u8], start: usize, t: u32, mode: u8) -> Result<(), Refusal>
    requires { start ≤ 80 }
    ensures { answer_number result ≡ list_end head.now start t mode }
{
    if t < 4 {
        return Err(Refusal::Short);
    }
    let n = fields::read_u16(head, start) as u32;
    if t < 4 + 2 * n {
        return Err(Refusal::Short);
    }
    if !both_closed(n, fields::read_u16(head, start + 2) as u32, mode) {
        return Err(Refusal::Layout);
    }
    if 4 + 2 * n < t {
        return Err(Refusal::Layout);
    }
    Ok(())
}

// Whether a standard or handler reference has an OXID, OID or IPID of zero.
fn is_nil(r: Reference) -> bool
    ensures { result ≡ is_nil_reference r }
{
    if r.flags == Reference::CUSTOM {
        return false;
    }
    r.block.has_nil()
}

// Of the list or the object data, once its beginning has come.
fn tail_end(head: &[u8], f: u32, seen: u32, mode: u8) -> Result<(), Refusal>
    requires { fixed_size f ≤ seen }
    ensures { answer_number result ≡ cond (is_custom f) 0 (list_end head.now (fixed_size f) (seen - fixed_size f) mode) }
{
    if f == Reference::CUSTOM {
        return Ok(());
    }
    let start = references::fixed_size(f);
    list_end(head, start, seen - start as u32, mode)
}

// The reference's own refusals.
fn read_end(head: &[u8], seen: u32, mode: u8) -> Result<(), Refusal>
    ensures { answer_number result ≡ read_end head.now seen mode }
{
    if seen < 24 {
        return Err(Refusal::Short);
    }
    if fields::read_u32(head, 0) != Reference::SIGNATURE {
        return Err(Refusal::Layout);
    }
    let f = fields::read_u32(head, 4);
    if !is_plain(f) {
        return Err(Refusal::Layout);
    }
    if (seen as usize) < references::fixed_size(f) {
        return Err(Refusal::Short);
    }
    tail_end(head, f, seen, mode)
}

// Whether kept bytes fit both buffers.
fn fits(over: bool, kept: usize, w: usize, n: usize) -> bool
    ensures { result ≡ not (over || ltb (min w n) kept) }
{
    if over {
        return false;
    }
    if w < kept {
        return false;
    }
    kept <= n
}

impl Fragments {
    // The answer once the end is declared, for a waiting buffer of w bytes and a final one of n.
    fn end_answer(self, w: usize, n: usize) -> Result<(), Refusal>
        ensures { answer_number result ≡ end_answer self w n }
    {
        read_end(&self.head, self.seen, self.mode)?;
        if is_nil(Reference::fields(&self.head)) {
            return Err(Refusal::NilIdentifier);
        }
        if fits(self.over, self.kept, w, n) {
            Ok(())
        } else {
            Err(Refusal::NoRoom)
        }
    }

    // Declares the end: the fields, and the list or object data at the front of last, the rest kept; or a refusal.
    pub fn finish(self, waiting: &[u8], last: &mut [u8]) -> Result<Whole, Refusal>
        ensures { (ended result ≡ finished (record { state = self; waiting = waiting.now }) (length last.old))
            × (last.new ≡ final_after (record { state = self; waiting = waiting.now }) last.old) }
    {
        self.end_answer(waiting.len(), last.len())?;
        fields::copy(last, 0, &waiting[..self.kept]);
        Ok(Whole {
            reference: Reference::fields(&self.head),
            length: self.kept,
        })
    }
}
