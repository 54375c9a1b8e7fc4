// Rule 9: whoever looked a page up lets go of it. The Rust has no such call: there a clone is dropped.
ghost use Rattle.model.specs.Call.{release};
ghost use Rattle.answer.specs.Parts.{SoundParts, FollowsStep};

use answer::{Answer, Answered};
use page::{PageCache, PageCacheKey};

// The page under the key has one holder less, whatever else its record says. It is the page that stands there now, which may be another
// one than was looked up.
pub fn release_page(
    slots: &mut [u64],
    by_key: &[u32],
    head: PageCache,
    key: PageCacheKey,
) -> Answered
    requires { SoundParts slots.old by_key.now head }
    ensures { FollowsStep (release key.0) slots.old by_key.now head slots.new result }
{
    let Ok(s) = moves::seat_of(by_key, slots, head.held, key) else {
        return Answered::plain(Answer::Absent, head);
    };
    let e = pool::load(slots, s);
    let Some(holders) = e.page.one_holder_less() else {
        return Answered::plain(Answer::HolderLimit, head);
    };
    moves::rewrite_at(slots, s, e.page.with_holders(holders));
    Answered::plain(Answer::Done(0), head)
}
