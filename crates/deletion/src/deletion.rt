// Rule 8: a page is deleted, unless it is locked, dirty or pinned.
ghost use Rattle.std.specs.Prelude.{ℕ, length};
ghost use Rattle.model.specs.Cache.{Cache};
ghost use Rattle.model.specs.Call.{answer, delete};
ghost use Rattle.model.specs.Row.{Entry};
ghost use Rattle.model.specs.Rules.{deleting};
ghost use Rattle.model.specs.Step.{step};
ghost use Rattle.memory.specs.Memory.{memory_in, SameSlices};
ghost use Rattle.memory.specs.Holds.{Holds, Sound};
ghost use Rattle.answer.specs.Answer.{code_of, value_of, MatchesOutcome};
ghost use Rattle.moves.specs.Moves.{StandsAt};
ghost use Rattle.deletion.specs.Deletion.{CanDelete, DeletionOf};

use answer::{Answer, Answered};
use memory::LentMemory;
use page::{PageCache, PageCacheKey, Slot};

// Deletes the page at slot s. Its handle goes to place `listed` of the list, and the head is the cache's from now on. Or the page stays,
// and nothing has changed: the answer is the first reason against it, with the page's key. `listed` stands beside the list, and not with it
// in a struct, as it does in crate eviction (`evict_to`).
pub fn delete_page(
    memory: &mut LentMemory<'_>,
    list: &mut [u32],
    listed: usize,
    head: PageCache,
    s: Slot,
) -> Result<PageCache, Answer>
    requires { CanDelete (memory_in memory.old) head s.0 list.old listed }
    ensures same { SameSlices memory.old memory.new }
    ensures outcome { (c : Cache) (key : ℕ) (e : Entry) → Holds (memory_in memory.old) head c → StandsAt c.row key s.0 e → DeletionOf c e.page (memory_in memory.old) list.old listed (memory_in memory.new) list.new result }
{
    let slots = &mut *memory.slots;
    let e = pool::load(slots, s);
    if let Err(why) = e.page.deletable() {
        return Err(Answer::refusal(e.key, Err(why)));
    }
    list[listed] = e.handle.0;
    Ok(moves::remove_at_slot(memory, head, s))
}

// Deletes the page at slot s, and answers so, or why not.
pub fn delete_at(
    memory: &mut LentMemory<'_>,
    list: &mut [u32],
    head: PageCache,
    s: Slot,
    done: Answer,
) -> Answered
    requires { CanDelete (memory_in memory.old) head s.0 list.old 0 }
    ensures same { SameSlices memory.old memory.new }
    ensures outcome { (c : Cache) (key : ℕ) (e : Entry) → Holds (memory_in memory.old) head c → StandsAt c.row key s.0 e → MatchesOutcome (deleting e.page (answer (code_of done) (value_of done)) c) list.old (memory_in memory.new) list.new result }
{
    match delete_page(memory, list, 0, head, s) {
        Ok(left) => Answered {
            answer: done,
            passed: 0,
            listed: 1,
            head: left,
        },
        Err(why) => Answered::plain(why, head),
    }
}

// Deletes the page under the key. An absent key is done.
pub fn delete(
    memory: &mut LentMemory<'_>,
    list: &mut [u32],
    head: PageCache,
    key: PageCacheKey,
) -> Answered
    requires { Sound (memory_in memory.old) head }
    ensures same { SameSlices memory.old memory.new }
    ensures outcome { (c : Cache) → Holds (memory_in memory.old) head c → MatchesOutcome (step (delete key.0 (length list.old)) c) list.old (memory_in memory.new) list.new result }
{
    if list.len() < head.held as usize {
        return Answered::plain(Answer::ShortList, head);
    }
    let seen = memory.view();
    let Ok(s) = moves::seat_of(seen.by_key, seen.slots, head.held, key) else {
        return Answered::plain(Answer::Done(0), head);
    };
    delete_at(memory, list, head, s, Answer::Done(0))
}
