ghost use Rattle.std.specs.Prelude.{length};
ghost use Rattle.model.specs.Call as call;
ghost use Rattle.memory.specs.Memory.{memory_in, SameSlices};
ghost use Rattle.contract.specs.Called.{lent, Called};

use answer::{Answer, Answered};
use memory::LentMemory;
use page::PageCache;
use soundness::is_sound;

// Takes one page: of those that may go, the lowest use count, the first from the hand among equals.
pub fn evict_one(memory: &mut LentMemory<'_>, list: &mut [u32], head: PageCache) -> Answered
    ensures same { SameSlices memory.old memory.new }
    ensures called { Called (call.evict_one (length list.old)) (lent (memory_in memory.old) list.old) head (lent (memory_in memory.new) list.new) result }
{
    if !is_sound(memory.view(), head) {
        return Answered::plain(Answer::NotSound, head);
    }
    let answered = resizing::evict(memory, list, head);
    memory.words_fit();
    answered
}
