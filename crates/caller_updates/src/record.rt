// Rule 12: the caller writes what it knows of a page. The page's handle, its use count and the estimate stay as they are.
ghost use Rattle.model.specs.Call.{write};
ghost use Rattle.answer.specs.Parts.{SoundParts, FollowsStep};

use answer::{Answer, Answered};
use page::{PageCache, PageCacheKey, PageRecord};

// The page under the key has this record from now on.
pub fn write_record(
    slots: &mut [u64],
    by_key: &[u32],
    head: PageCache,
    key: PageCacheKey,
    page: PageRecord,
) -> Answered
    requires { SoundParts slots.old by_key.now head }
    ensures { FollowsStep (write key.0 page) slots.old by_key.now head slots.new result }
{
    if PageRecord::ALL_FLAGS < page.flags {
        return Answered::plain(Answer::BadRecord, head);
    }
    let Ok(s) = moves::seat_of(by_key, slots, head.held, key) else {
        return Answered::plain(Answer::Absent, head);
    };
    moves::rewrite_at(slots, s, page);
    Answered::plain(Answer::Done(0), head)
}
