ghost use Rattle.std.specs.Prelude.{length};
ghost use Rattle.model.specs.Call as call;
ghost use Rattle.memory.specs.Memory.{memory_in, SameSlices};
ghost use Rattle.contract.specs.Called.{lent, Called};

use answer::{Answer, Answered};
use memory::LentMemory;
use page::{PageCache, PageCacheKey};
use soundness::is_sound;

// Deletes the page under a key, unless it is locked, dirty or pinned.
pub fn delete(
    memory: &mut LentMemory<'_>,
    list: &mut [u32],
    head: PageCache,
    key: PageCacheKey,
) -> Answered
    ensures same { SameSlices memory.old memory.new }
    ensures called { Called (call.delete key.0 (length list.old)) (lent (memory_in memory.old) list.old) head (lent (memory_in memory.new) list.new) result }
{
    if !is_sound(memory.view(), head) {
        return Answered::plain(Answer::NotSound, head);
    }
    let answered = deletion::delete(memory, list, head, key);
    memory.words_fit();
    answered
}
