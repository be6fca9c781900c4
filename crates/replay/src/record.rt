// The record that differs.
use kinds::limits;
use print::Buffer;
use recording::Ends;
use replay_answers::Answered;

// Record k, from 1: its call, what was recorded, and what we answer, in a recording of the records before it.
pub fn differing(out: &mut Buffer, s: &mut [u8], k: u32) {
    let at = replay_lines::differing(out, s, k);
    fields::write_u64(s, 0, k.wrapping_sub(1) as u64);
    ours(out, s, at);
}

// Our answer to the record from at.
fn ours(out: &mut Buffer, s: &[u8], at: usize) {
    let e = recording::record_ends(s, at);
    let mut buffer = [0u8; replay_answers::MOST_SHOWN];
    let a = performed(s, at, e, &mut buffer);
    let code = recording::byte(replay_lines::section(s, at, e.call), 0);
    let shown = &buffer[..fields::within(&buffer, a.shown)];
    replay_lines::ours(
        out,
        code,
        &a.numbers,
        shown,
        replay_lines::section(s, e.answer, e.shown),
    );
}

// The same on a table after the records before it, which are replayed once more.
fn performed(s: &[u8], at: usize, e: Ends, buffer: &mut [u8]) -> Answered {
    let mut words = [0u64; limits::WORDS];
    let mut store = [0u8; limits::BYTES];
    replaying::replay(&mut words, &mut store, &s[..fields::within(s, at)]);
    replay_answers::performed(
        &mut words,
        &mut store,
        replay_lines::section(s, at, e.call),
        replay_lines::section(s, e.call, e.first),
        replay_lines::section(s, e.first, e.second),
        buffer,
    )
}
