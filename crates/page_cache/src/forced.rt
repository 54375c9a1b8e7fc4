ghost use Rattle.std.specs.Prelude.{length};
ghost use Rattle.model.specs.Call as call;
ghost use Rattle.memory.specs.Memory.{memory_in, SameSlices};
ghost use Rattle.contract.specs.Called.{lent, Called};

use answer::{Answer, Answered};
use insertion::{InsertMode, NewPage, insert_page};
use memory::LentMemory;
use page::{PageCache, PageCacheKey, PageHandle, PageRecord};
use soundness::is_sound;

// Inserts a page, beyond the capacity if no room can be made. To refuse it would free no memory, since the caller has the page already.
pub fn force_insert_page(
    memory: &mut LentMemory<'_>,
    list: &mut [u32],
    head: PageCache,
    key: PageCacheKey,
    handle: PageHandle,
    page: PageRecord,
) -> Answered
    ensures same { SameSlices memory.old memory.new }
    ensures called { Called (call.insert call.forced key.0 handle.0 page (length list.old)) (lent (memory_in memory.old) list.old) head (lent (memory_in memory.new) list.new) result }
{
    if !is_sound(memory.view(), head) {
        return Answered::plain(Answer::NotSound, head);
    }
    let asked = NewPage {
        key,
        handle,
        page,
        mode: InsertMode::Forced,
    };
    let answered = insert_page(memory, list, head, asked);
    memory.words_fit();
    answered
}
