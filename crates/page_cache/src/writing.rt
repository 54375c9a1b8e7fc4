ghost use Rattle.std.specs.Prelude.{[]};
ghost use Rattle.model.specs.Call as call;
ghost use Rattle.memory.specs.Memory.{memory_of};
ghost use Rattle.contract.specs.Called.{lent, Called};

use answer::{Answer, Answered};
use memory::LentView;
use page::{PageCache, PageCacheKey, PageRecord};
use soundness::is_sound;

// Another record for the page under a key, its holders included. Its handle, its use count and the estimate stay.
pub fn write_record(
    slots: &mut [u64],
    by_key: &[u32],
    by_handle: &[u32],
    marks: &[u64],
    head: PageCache,
    key: PageCacheKey,
    page: PageRecord,
) -> Answered
    ensures { let before = memory_of slots.old by_key.now by_handle.now marks.now in let after = memory_of slots.new by_key.now by_handle.now marks.now in Called (call.write key.0 page) (lent before []) head (lent after []) result }
{
    let memory = LentView {
        slots,
        by_key,
        by_handle,
        marks,
    };
    if !is_sound(memory, head) {
        return Answered::plain(Answer::NotSound, head);
    }
    caller_updates::write_record(slots, by_key, head, key, page)
}
