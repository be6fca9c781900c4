// Why a call is refused, and the number that is answered (document 01, "Answer numbers").
ghost use Rattle.std.specs.Prelude.{◌≡◌};
ghost use Rattle.kinds.specs.Answers.{refusal_number, answer_number};

use crate::answer;

#[derive(Clone, Copy, PartialEq, Eq)]
pub enum Refusal {
    // A lent table has the wrong length or is not sound.
    Unsound,
    // The new clock is below the table's clock.
    ClockBack,
    // An identifier to be entered is zero or already live.
    BadIdentifier,
    NoExporter,
    NoObject,
    NoInterface,
    // An entry with zero references.
    NoReferences,
    // A count would pass 4,294,967,295.
    CountOverflow,
    // No free place of a kind that is needed, or no room for a list in the store.
    NoPlace,
    // A list of more identifiers, items or protocols than MOST_LISTED.
    TooMany,
    NoSet,
    // A stale sequence number.
    Stale,
    // The bytes end before a field does.
    Short,
    // A layout rule is broken.
    Layout,
    // The output buffer is too short.
    NoRoom,
    // A version that is not understood.
    Version,
    // The set numbers are used up.
    SetsUsedUp,
    // A binding list of more than 2,048 bytes.
    LongList,
    // The client is none of 0 to 7.
    NoClient,
    // References nested deeper than 8.
    TooDeep,
    // An OXID, OID or IPID of a reference is zero.
    NilIdentifier,
    // Bytes that are the snapshot of no sound table.
    NoSnapshot,
    // A list has no binding of the number asked for.
    NoBinding,
}

// The number of a refusal. 17 is no answer of this library.
impl From<Refusal> for u32 {
    ghost from_gives = { λ why n. n ≡ refusal_number why };

    fn from(why: Refusal) -> u32 {
        match why {
            Refusal::Unsound => answer::UNSOUND,
            Refusal::ClockBack => answer::CLOCK_BACK,
            Refusal::BadIdentifier => answer::BAD_IDENTIFIER,
            Refusal::NoExporter => answer::NO_EXPORTER,
            Refusal::NoObject => answer::NO_OBJECT,
            Refusal::NoInterface => answer::NO_INTERFACE,
            Refusal::NoReferences => answer::NO_REFERENCES,
            Refusal::CountOverflow => answer::COUNT_OVERFLOW,
            Refusal::NoPlace => answer::NO_PLACE,
            Refusal::TooMany => answer::TOO_MANY,
            Refusal::NoSet => answer::NO_SET,
            Refusal::Stale => answer::STALE,
            Refusal::Short => answer::SHORT,
            Refusal::Layout => answer::LAYOUT,
            Refusal::NoRoom => answer::NO_ROOM,
            Refusal::Version => answer::VERSION,
            Refusal::SetsUsedUp => answer::SETS_USED_UP,
            Refusal::LongList => answer::LONG_LIST,
            Refusal::NoClient => answer::NO_CLIENT,
            Refusal::TooDeep => answer::TOO_DEEP,
            Refusal::NilIdentifier => answer::NIL_IDENTIFIER,
            Refusal::NoSnapshot => answer::NO_SNAPSHOT,
            Refusal::NoBinding => answer::NO_BINDING,
        }
    }
}

// The number that is answered: 0 where the call is done.
pub fn number<T: Copy>(answer: Result<T, Refusal>) -> u32
    ensures { result ≡ answer_number answer }
{
    match answer {
        Ok(_) => answer::DONE,
        Err(why) => u32::from(why),
    }
}
