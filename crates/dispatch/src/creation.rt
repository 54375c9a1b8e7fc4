// A creation, and its answer.
ghost use Rattle.memory.specs.Memory.{memory_in, SameSlices};
ghost use Rattle.dispatch.specs.Runs.{Makes};

use answer::{Answer, Answered};
use creating::CreationError;
use memory::LentMemory;
use page::PageCache;

// Makes a cache of any memory, or refuses and alters nothing. A refusal leaves the head as it was. No From for it: creating knows no
// answers, and crate answer knows no creation.
pub fn create(memory: &mut LentMemory<'_>, head: PageCache, capacity: u64) -> Answered
    ensures same { SameSlices memory.old memory.new }
    ensures makes { Makes capacity (memory_in memory.old) head (memory_in memory.new) result }
{
    match creating::create(memory, capacity) {
        Ok(new) => Answered::plain(Answer::Done(0), new),
        Err(CreationError::BadLengths) => Answered::plain(Answer::BadLengths, head),
        Err(CreationError::TooLarge) => Answered::plain(Answer::TooLarge, head),
    }
}
