ghost use Rattle.std.specs.Prelude.{length};
ghost use Rattle.model.specs.Call as call;
ghost use Rattle.memory.specs.Memory.{memory_in, SameSlices};
ghost use Rattle.contract.specs.Called.{lent, Called};

use answer::{Answer, Answered};
use memory::LentMemory;
use page::PageCache;
use soundness::is_sound;

// Sets another capacity, evicting while more pages are held.
pub fn resize(
    memory: &mut LentMemory<'_>,
    list: &mut [u32],
    head: PageCache,
    capacity: u64,
) -> Answered
    ensures same { SameSlices memory.old memory.new }
    ensures called { Called (call.resize capacity (length list.old)) (lent (memory_in memory.old) list.old) head (lent (memory_in memory.new) list.new) result }
{
    if !is_sound(memory.view(), head) {
        return Answered::plain(Answer::NotSound, head);
    }
    let answered = resizing::resize(memory, list, head, capacity);
    memory.words_fit();
    answered
}
