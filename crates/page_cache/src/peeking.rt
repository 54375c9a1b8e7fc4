ghost use Rattle.std.specs.Prelude.{[]};
ghost use Rattle.model.specs.Call as call;
ghost use Rattle.memory.specs.Memory.{memory_of};
ghost use Rattle.contract.specs.Called.{lent, Called};

use answer::{Answer, Answered};
use memory::LentView;
use page::{PageCache, PageCacheKey};
use soundness::is_sound;

// The handle of the page under a key, whatever its flags. It has one holder more, until it is released, and is touched if asked.
pub fn peek(
    slots: &mut [u64],
    by_key: &[u32],
    by_handle: &[u32],
    marks: &[u64],
    head: PageCache,
    key: PageCacheKey,
    touch: bool,
) -> Answered
    ensures { let before = memory_of slots.old by_key.now by_handle.now marks.now in let after = memory_of slots.new by_key.now by_handle.now marks.now in Called (call.peek key.0 touch) (lent before []) head (lent after []) result }
{
    let memory = LentView {
        slots,
        by_key,
        by_handle,
        marks,
    };
    if !is_sound(memory, head) {
        return Answered::plain(Answer::NotSound, head);
    }
    lookups::peek(slots, by_key, head, key, touch)
}
