// The key's page is neither loaded nor locked: it was given up while it was read (rule 6). It is deleted and listed, and the new one
// goes in as under an absent key; or rule 8 refuses.
//
// The memory has to hold a cache with the key's page at the slot, in which the handle stands under no other key; the record has to
// be good, and the list as long as held. Callers may rely on `insert_stale` being the model's rule: its answer, the pages passed, the
// stale page's handle and after it the evicted ones in the list, and the cache that the memory holds afterwards. A page that rule 8
// keeps leaves every word as it was.
ghost use Rattle.memory.specs.Memory.{memory_in, SameSlices};
ghost use Rattle.insertion.specs.Renew.{KeyFound, InsertsStale};

use crate::absent::admit;
use crate::mode::NewPage;
use answer::Answered;
use memory::LentMemory;
use page::{PageCache, Slot};

// The page at slot s is deleted and listed, and the new one goes on as under an absent key, with gaps of after the deletion; or rule 8
// refuses.
pub fn insert_stale(
    memory: &mut LentMemory<'_>,
    list: &mut [u32],
    head: PageCache,
    s: Slot,
    asked: NewPage,
) -> Answered
    requires { KeyFound (memory_in memory.old) head list.old s.0 asked }
    ensures same { SameSlices memory.old memory.new }
    ensures outcome { InsertsStale (memory_in memory.old) head list.old s.0 asked (memory_in memory.new) list.new result }
{
    match deletion::delete_page(memory, list, 0, head, s) {
        Ok(left) => {
            let gaps = moves::find_gaps(memory.view(), left, asked.key, asked.handle);
            admit(memory, list, 1, left, gaps, asked)
        }
        Err(why) => Answered::plain(why, head),
    }
}
