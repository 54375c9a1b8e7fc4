// An insertion, once its tests are passed, by what stands under the key: nothing (absent.rt), a page that is neither loaded nor locked
// (stale.rt), or any other page (present.rt).
//
// The memory has to hold a cache; the record has to be good, and the list as long as held. `insert_by_key` searches for the key and is
// told the gap of the handle, which has to stand nowhere; `insert_found` is told the slot of the key's page, and the handle has to stand
// under no other key. Callers may rely on both being the model's rules: the answer, the pages passed, the handles listed and the cache
// that the memory holds afterwards.
ghost use Rattle.memory.specs.Memory.{memory_in, SameSlices};
ghost use Rattle.insertion.specs.Renew.{KeyFound};
ghost use Rattle.insertion.specs.Insert.{Insertable, Inserts, InsertsFound};

use crate::absent::admit;
use crate::mode::NewPage;
use crate::present::present;
use crate::stale::insert_stale;
use answer::Answered;
use memory::LentMemory;
use moves::Gaps;
use page::{PageCache, Slot};

pub fn insert_by_key(
    memory: &mut LentMemory<'_>,
    list: &mut [u32],
    head: PageCache,
    gap: usize,
    asked: NewPage,
) -> Answered
    requires { Insertable (memory_in memory.old) head list.old gap asked }
    ensures same { SameSlices memory.old memory.new }
    ensures outcome { Inserts (memory_in memory.old) head list.old asked (memory_in memory.new) list.new result }
{
    let seen = memory.view();
    match moves::seat_of(seen.by_key, seen.slots, head.held, asked.key) {
        Ok(s) => insert_found(memory, list, head, s, asked),
        Err(at) => {
            let gaps = Gaps {
                key: at,
                handle: gap,
            };
            admit(memory, list, 0, head, gaps, asked)
        }
    }
}

// The key's page stands at slot s. One that is neither loaded nor locked was given up while it was read, and must go.
pub fn insert_found(
    memory: &mut LentMemory<'_>,
    list: &mut [u32],
    head: PageCache,
    s: Slot,
    asked: NewPage,
) -> Answered
    requires { KeyFound (memory_in memory.old) head list.old s.0 asked }
    ensures same { SameSlices memory.old memory.new }
    ensures outcome { InsertsFound (memory_in memory.old) head list.old s.0 asked (memory_in memory.new) list.new result }
{
    let slots = &mut *memory.slots;
    let there = pool::load(slots, s).page;
    if there.is_stale() {
        return insert_stale(memory, list, head, s, asked);
    }
    let slots = &mut *memory.slots;
    present(slots, memory.by_handle, head, s, asked)
}
