// Which pages a spill should take (rules 13 and 14).
ghost use Rattle.std.specs.Prelude.{length};
ghost use Rattle.model.specs.Call as call;
ghost use Rattle.memory.specs.Memory.{memory_seen};
ghost use Rattle.contract.specs.Called.{lent, Called};

use answer::{Answer, Answered};
use memory::LentView;
use page::PageCache;
use soundness::is_sound;

// Whether a spill is needed, and if so the handles of the first pages by key that can be spilled, `most` of them at most.
pub fn check_spill(memory: LentView<'_>, list: &mut [u32], head: PageCache, most: u64) -> Answered
    ensures { Called (call.spill most (length list.old)) (lent (memory_seen memory.entry) list.old) head (lent (memory_seen memory.entry) list.new) result }
{
    if !is_sound(memory, head) {
        return Answered::plain(Answer::NotSound, head);
    }
    spilling::check_spill(memory.slots, memory.by_key, list, head, most)
}
