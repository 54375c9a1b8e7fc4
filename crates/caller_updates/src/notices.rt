// Rule 12: the caller says that a page became dirty or was spilled, and the estimate follows. The page's flags aren't looked
// at: whoever gives notice has changed them, or is about to.
ghost use Rattle.std.specs.Prelude.{◌≡◌, ℕ};
ghost use Rattle.pool.specs.Slots.{entries};
ghost use Rattle.sorted_index.specs.Index.{Index};
ghost use Rattle.sorted_index.specs.Names.{names};
ghost use Rattle.sorted_index.specs.declared.search.By.TheVariants.{Key};
ghost use Rattle.model.specs.Call.{notify_dirty, notify_spilled};
ghost use Rattle.answer.specs.Parts.{SoundParts, FollowsStep};
ghost use Rattle.caller_updates.specs.Notice.{Notices, Notified};

use answer::{Answer, Answered};
use page::{PageCache, PageCacheKey};

// A page became dirty, so that it may not go: 1 less.
pub fn notify_page_dirty(
    slots: &[u64],
    by_key: &[u32],
    head: PageCache,
    key: PageCacheKey,
) -> Answered
    requires { SoundParts slots.now by_key.now head }
    ensures { FollowsStep (notify_dirty key.0) slots.now by_key.now head slots.now result }
{
    notify(
        slots,
        by_key,
        head,
        key,
        |estimate| moves::count_down(estimate),
    )
}

// A dirty page was spilled, so that it may go: 1 more.
pub fn notify_page_spilled(
    slots: &[u64],
    by_key: &[u32],
    head: PageCache,
    key: PageCacheKey,
) -> Answered
    requires { SoundParts slots.now by_key.now head }
    ensures { FollowsStep (notify_spilled key.0) slots.now by_key.now head slots.now result }
{
    notify(
        slots,
        by_key,
        head,
        key,
        |estimate| moves::count_up(estimate),
    )
}

// What the two have in common: the estimate is counted on by `count`, if it follows a notice of this key. Both hand over a closure: the
// check knows no function of another crate as a value.
fn notify<F: Fn(u32) -> u32>(
    slots: &[u64],
    by_key: &[u32],
    head: PageCache,
    key: PageCacheKey,
    count: F,
) -> Answered
    requires sound { SoundParts slots.now by_key.now head }
    requires callable { F.IsAlwaysCallable count }
    ensures { (by : ℕ → ℕ) → ((n : ℕ) → F.post count head.estimate n → n ≡ by head.estimate) → Notified by slots.now by_key.now head key.0 result }
{
    if !takes_notice(slots, by_key, head.held, key) {
        return Answered::plain(Answer::Done(0), head);
    }
    let mut counted = head;
    counted.estimate = count(head.estimate);
    Answered::plain(Answer::Done(0), counted)
}

// Whether the estimate follows a notice of this key: there is such a page, and it isn't page 1, which never counts.
fn takes_notice(slots: &[u64], by_key: &[u32], held: u32, key: PageCacheKey) -> bool
    requires { Index (names Key (entries slots.now)) by_key.now held }
    ensures { Notices slots.now by_key.now held key.0 result }
{
    moves::seat_of(by_key, slots, held, key).is_ok() && key != PageCache::HEADER_PAGE
}
