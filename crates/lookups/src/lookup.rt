// Rule 9: the page under a key, for one who holds it from now on.
ghost use Rattle.std.specs.Prelude.{length};
ghost use Rattle.model.specs.Cache.{Cache};
ghost use Rattle.model.specs.Call.{lookup, peek};
ghost use Rattle.model.specs.Step.{step};
ghost use Rattle.memory.specs.Memory.{memory_in, SameSlices};
ghost use Rattle.memory.specs.Holds.{Holds, Sound};
ghost use Rattle.answer.specs.Answer.{MatchesOutcome};
ghost use Rattle.answer.specs.Parts.{SoundParts, FollowsStep};
ghost use Rattle.lookups.specs.Hit.{CanHit, Hits};

use answer::{Answer, Answered};
use deletion::delete_at;
use memory::LentMemory;
use page::{PageCache, PageCacheEntry, PageCacheKey, Slot};

// The handle of the page under the key, which is touched and has one holder more. A read that was given up leaves a page neither
// loaded nor locked: such a page is deleted, whoever holds it, and counts as absent, so that no caller is handed it.
pub fn get(
    memory: &mut LentMemory<'_>,
    list: &mut [u32],
    head: PageCache,
    key: PageCacheKey,
) -> Answered
    requires { Sound (memory_in memory.old) head }
    ensures same { SameSlices memory.old memory.new }
    ensures outcome { (c : Cache) → Holds (memory_in memory.old) head c → MatchesOutcome (step (lookup key.0 (length list.old)) c) list.old (memory_in memory.new) list.new result }
{
    if list.len() < head.held as usize {
        return Answered::plain(Answer::ShortList, head);
    }
    let seen = memory.view();
    let Ok(s) = moves::seat_of(seen.by_key, seen.slots, head.held, key) else {
        return Answered::plain(Answer::Absent, head);
    };
    let slots = &mut *memory.slots;
    let e = pool::load(slots, s);
    if e.page.is_stale() {
        return delete_at(memory, list, head, s, Answer::Absent);
    }
    hit(slots, head, s, e, true)
}

// The handle of the page under the key, whatever its flags, which has one holder more and is touched if asked: that is 01's option, in the
// definition too, and so a value and no closure.
pub fn peek(
    slots: &mut [u64],
    by_key: &[u32],
    head: PageCache,
    key: PageCacheKey,
    touch: bool,
) -> Answered
    requires { SoundParts slots.old by_key.now head }
    ensures { FollowsStep (peek key.0 touch) slots.old by_key.now head slots.new result }
{
    let Ok(at) = moves::seat_of(by_key, slots, head.held, key) else {
        return Answered::plain(Answer::Absent, head);
    };
    let e = pool::load(slots, at);
    hit(slots, head, at, e, touch)
}

// The handle of the page e at slot s, which has one holder more and is touched if asked. If its record can't count one more, it is left
// as it is.
fn hit(slots: &mut [u64], head: PageCache, s: Slot, e: PageCacheEntry, touch: bool) -> Answered
    requires { CanHit slots.old head s.0 e }
    ensures { Hits slots.old head s.0 touch slots.new result }
{
    let Some(holders) = e.page.one_holder_more() else {
        return Answered::plain(Answer::HolderLimit, head);
    };
    moves::rewrite_at(slots, s, e.page.with_holders(holders));
    let found = Answered::plain(Answer::Done(e.handle.0), head);
    if !touch {
        return found;
    }
    moves::touch_at(slots, s);
    found
}
