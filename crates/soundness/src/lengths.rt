// The lengths of the lent parts, and the numbers of the head.
ghost use Rattle.pool.specs.Decides.{Decides};
ghost use Rattle.memory.specs.Memory.{memory_seen};
ghost use Rattle.soundness.specs.Checks.{Agreeing, InRange};

use memory::LentView;
use page::PageCache;

// Whether the parts have the lengths that they need for as many slots as `by_key` has places.
pub fn lengths_agree(memory: LentView<'_>) -> bool
    ensures { Decides result (Agreeing (memory_seen memory.entry)) }
{
    let size = memory.by_key.len();
    if size > PageCache::MAX_SLOTS as usize {
        return false;
    }
    (size >= 1)
        & (memory.slots.len() == 4 * size)
        & (memory.by_handle.len() == size)
        & (memory.marks.len() == (size + 63) / 64)
}

// Whether the head's numbers are in range for a pool of that size.
pub fn in_range(head: PageCache, size: u32) -> bool
    ensures { Decides result (InRange head size) }
{
    (head.capacity <= size) & (head.held <= size) & (head.spill <= 1)
}
