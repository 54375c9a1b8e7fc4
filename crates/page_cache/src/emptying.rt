ghost use Rattle.std.specs.Prelude.{length};
ghost use Rattle.model.specs.Call as call;
ghost use Rattle.memory.specs.Memory.{memory_in, SameSlices};
ghost use Rattle.contract.specs.Called.{lent, Called};

use answer::{Answer, Answered};
use memory::LentMemory;
use page::PageCache;
use soundness::is_sound;

// Removes every page. If one is dirty it removes nothing, unless it is told to remove dirty pages too.
pub fn clear(
    memory: &mut LentMemory<'_>,
    list: &mut [u32],
    head: PageCache,
    dirty_too: bool,
) -> Answered
    ensures same { SameSlices memory.old memory.new }
    ensures called { Called (call.clear dirty_too (length list.old)) (lent (memory_in memory.old) list.old) head (lent (memory_in memory.new) list.new) result }
{
    if !is_sound(memory.view(), head) {
        return Answered::plain(Answer::NotSound, head);
    }
    let answered = clearing::clear(memory, list, head, dirty_too);
    memory.words_fit();
    answered
}
