// Whether a listing may go ahead: the tests that come first, in document 01's order.
ghost use Rattle.memory.specs.Memory.{memory_seen};
ghost use Rattle.listing.specs.Outcome.{Admits};

use memory::LentView;
use page::PageCache;
use soundness::is_sound;

// Why nothing was listed.
#[derive(Clone, Copy, PartialEq, Eq)]
pub enum ListingError {
    // 1. The memory is not sound.
    NotSound,
    // 3. The list has too few places for the held pages.
    ShortList,
}

// Tests the memory, and whether a list with room for `room` pages has room for the held ones. Says how many these are.
pub fn admit(memory: LentView<'_>, head: PageCache, room: usize) -> Result<u32, ListingError>
    ensures { Admits (memory_seen memory.entry) head room result }
{
    if !is_sound(memory, head) {
        return Err(ListingError::NotSound);
    }
    if room < head.held as usize {
        return Err(ListingError::ShortList);
    }
    Ok(head.held)
}
