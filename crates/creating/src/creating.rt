// Creation: every lent word is set, whatever stood there.
ghost use Rattle.std.specs.Prelude.{◌≡◌};
ghost use Rattle.memory.specs.Memory.{memory_in, SameSlices};
ghost use Rattle.soundness.specs.Checks.{MarksFit};
ghost use Rattle.creating.specs.Creation.{Creates, free_marks};

use memory::LentMemory;
use page::PageCache;
use soundness::lengths_agree;

// Why no cache was made.
#[derive(Clone, Copy, PartialEq, Eq)]
pub enum CreationError {
    // 16. There are no slots, or too many, or the lengths of the parts don't agree.
    BadLengths,
    // 15. The capacity is above the number of slots.
    TooLarge,
}

fn mark_all_free(marks: &mut [u64], size: usize)
    requires { MarksFit marks.old size }
    ensures { marks.new ≡ free_marks size }
{
    marks.fill(u64::MAX);
    let last = size / 64;
    if last < marks.len() {
        marks[last] = (1 << (size % 64)) - 1;
    }
}

// Makes a cache of any memory, which holds nothing: the answer is its head. A refusal alters nothing.
pub fn create(memory: &mut LentMemory<'_>, capacity: u64) -> Result<PageCache, CreationError>
    ensures same { SameSlices memory.old memory.new }
    ensures made { Creates (memory_in memory.old) capacity result (memory_in memory.new) }
{
    if !lengths_agree(memory.view()) {
        return Err(CreationError::BadLengths);
    }
    let size = memory.by_key.len();
    if capacity > size as u64 {
        return Err(CreationError::TooLarge);
    }
    memory.slots.fill(0);
    memory.by_key.fill(0);
    memory.by_handle.fill(0);
    mark_all_free(memory.marks, size);
    Ok(PageCache::new(capacity as u32))
}
