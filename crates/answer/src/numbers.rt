// Document 01's numbers for an answer, for whoever writes them down: the replay program, and callers in other languages.
ghost use Rattle.std.specs.Prelude.{◌≡◌};
ghost use Rattle.answer.specs.Answer.{code_of, value_of};

use crate::answer::Answer;

// The number of the answer, 0 to 20. No cast gives it: some answers have a field. No From: 01's table has the number and the value beside it,
// and the definitions have them under these two names.
pub fn code_of(answer: Answer) -> u8
    ensures { result ≡ code_of answer }
{
    match answer {
        Answer::Done(_) => 0,
        Answer::NotSound => 1,
        Answer::BadRecord => 2,
        Answer::ShortList => 3,
        Answer::Absent => 4,
        Answer::Locked(_) => 5,
        Answer::Dirty(_) => 6,
        Answer::Pinned(_) => 7,
        Answer::Full => 8,
        Answer::KeyExists => 9,
        Answer::PendingEvictions => 10,
        Answer::OtherPage => 11,
        Answer::HandleElsewhere => 12,
        Answer::NoSlot => 13,
        Answer::Empty => 14,
        Answer::TooLarge => 15,
        Answer::BadLengths => 16,
        Answer::BadReplay => 17,
        Answer::NotNeeded => 18,
        Answer::NoneSelected => 19,
        Answer::HolderLimit => 20,
    }
}

// The found or replaced handle, the number selected, or the refusing key; else 0.
pub fn value_of(answer: Answer) -> u32
    ensures { result ≡ value_of answer }
{
    match answer {
        Answer::Done(value) => value,
        Answer::Locked(key) | Answer::Dirty(key) | Answer::Pinned(key) => key.0,
        _ => 0,
    }
}
