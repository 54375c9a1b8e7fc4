// One eviction: a sweep, and the removal of the page that it finds.
ghost use Rattle.model.specs.Cache.{Cache};
ghost use Rattle.memory.specs.Memory.{memory_in, SameSlices};
ghost use Rattle.memory.specs.Holds.{Holds};
ghost use Rattle.eviction.specs.Evict.{Occupied, EvictionOf};

use crate::sweeping::{Swept, sweep};
use memory::LentMemory;
use page::{PageCache, PageHandle};

// The page with this handle is gone, after `passed` pages were passed. The head is the cache's from now on.
#[derive(Clone, Copy)]
pub struct Evicted {
    pub handle: PageHandle,
    pub passed: u64,
    pub head: PageCache,
}

// No page may go. Four rounds were passed, and nothing has changed: the head that the caller has is still good.
#[derive(Clone, Copy)]
pub struct Full {
    pub passed: u64,
}

// Takes the page that may go and has the lowest use count, the first from the hand among equals.
pub fn evict_one(memory: &mut LentMemory<'_>, head: PageCache) -> Result<Evicted, Full>
    requires { Occupied (memory_in memory.old) head }
    ensures same { SameSlices memory.old memory.new }
    ensures outcome { (c : Cache) → Holds (memory_in memory.old) head c → EvictionOf c (memory_in memory.new) head result }
{
    let slots = &mut *memory.slots;
    let Swept { found, at, passed } = sweep(slots, head.hand, head.held);
    if !found {
        return Err(Full { passed });
    }
    let handle = pool::load(slots, at).handle;
    let turned = PageCache { hand: at, ..head };
    let left = moves::remove_at_slot(memory, turned, at);
    Ok(Evicted {
        handle,
        passed,
        head: left,
    })
}
