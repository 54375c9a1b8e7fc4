ghost use Rattle.std.specs.Prelude.{length};
ghost use Rattle.model.specs.Call as call;
ghost use Rattle.memory.specs.Memory.{memory_in, SameSlices};
ghost use Rattle.contract.specs.Called.{lent, Called};

use answer::{Answer, Answered};
use memory::LentMemory;
use page::PageCache;
use soundness::is_sound;

// Deletes the clean pages that were read from frames of the write-ahead log above the limit.
pub fn delete_clean_pages_after_wal_frame(
    memory: &mut LentMemory<'_>,
    list: &mut [u32],
    head: PageCache,
    limit: u64,
) -> Answered
    ensures same { SameSlices memory.old memory.new }
    ensures called { Called (call.remove_frames limit (length list.old)) (lent (memory_in memory.old) list.old) head (lent (memory_in memory.new) list.new) result }
{
    if !is_sound(memory.view(), head) {
        return Answered::plain(Answer::NotSound, head);
    }
    let answered = truncation::delete_clean_pages_after_wal_frame(memory, list, head, limit);
    memory.words_fit();
    answered
}
