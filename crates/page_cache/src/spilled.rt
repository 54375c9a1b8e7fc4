ghost use Rattle.std.specs.Prelude.{[]};
ghost use Rattle.model.specs.Call as call;
ghost use Rattle.memory.specs.Memory.{memory_seen};
ghost use Rattle.contract.specs.Called.{lent, Called};

use answer::{Answer, Answered};
use memory::LentView;
use page::{PageCache, PageCacheKey};
use soundness::is_sound;

// Notice that the page under a key was spilled.
pub fn notify_page_spilled(memory: LentView<'_>, head: PageCache, key: PageCacheKey) -> Answered
    ensures { Called (call.notify_spilled key.0) (lent (memory_seen memory.entry) []) head (lent (memory_seen memory.entry) []) result }
{
    if !is_sound(memory, head) {
        return Answered::plain(Answer::NotSound, head);
    }
    caller_updates::notify_page_spilled(memory.slots, memory.by_key, head, key)
}
