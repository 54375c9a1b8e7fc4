ghost use Rattle.std.specs.Prelude.{[]};
ghost use Rattle.model.specs.Call as call;
ghost use Rattle.memory.specs.Memory.{memory_seen};
ghost use Rattle.contract.specs.Called.{lent, Called};

use answer::{Answer, Answered};
use memory::LentView;
use page::PageCache;
use soundness::is_sound;

// Turns spilling on or off.
pub fn set_spill_enabled(memory: LentView<'_>, head: PageCache, on: bool) -> Answered
    ensures { Called (call.switch on) (lent (memory_seen memory.entry) []) head (lent (memory_seen memory.entry) []) result }
{
    if !is_sound(memory, head) {
        return Answered::plain(Answer::NotSound, head);
    }
    caller_updates::set_spill_enabled(head, on)
}
