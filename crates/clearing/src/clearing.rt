// The removal of all pages (rule 11).
ghost use Rattle.std.specs.Prelude.{false, length};
ghost use Rattle.pool.specs.Slots.{entries};
ghost use Rattle.sorted_index.specs.Index.{Index};
ghost use Rattle.sorted_index.specs.Names.{names};
ghost use Rattle.sorted_index.specs.declared.search.By.TheVariants.{Key};
ghost use Rattle.model.specs.Cache.{Cache};
ghost use Rattle.model.specs.Call as call;
ghost use Rattle.model.specs.Rules.{emptied};
ghost use Rattle.model.specs.Step.{step};
ghost use Rattle.memory.specs.Memory.{memory_in, SameSlices};
ghost use Rattle.memory.specs.Holds.{Holds, Sound};
ghost use Rattle.memory.specs.Walk.{walk};
ghost use Rattle.answer.specs.Answer.{ReadyToCall, Wrote, MatchesOutcome};
ghost use Rattle.clearing.specs.Clear.{handles_of, hindering, FirstIs, CanListAll};

use answer::{Answer, Answered};
use memory::{LentMemory, LentView};
use page::{PageCache, PageCacheKey, Slot};

// Removes every page. If a page is dirty nothing is removed, unless dirty pages are to go too (01's option, in the definition too). Locks,
// pins and holders don't matter.
pub fn clear(
    memory: &mut LentMemory<'_>,
    list: &mut [u32],
    head: PageCache,
    dirty_too: bool,
) -> Answered
    requires { Sound (memory_in memory.old) head }
    ensures same { SameSlices memory.old memory.new }
    ensures outcome { (c : Cache) → Holds (memory_in memory.old) head c → MatchesOutcome (step (call.clear dirty_too (length list.old)) c) list.old (memory_in memory.new) list.new result }
{
    if list.len() < head.held as usize {
        return Answered::plain(Answer::ShortList, head);
    }
    match what_hinders(memory.view(), head.held, dirty_too) {
        Some(key) => Answered::plain(Answer::Dirty(key), head),
        None => empty(memory, list, head),
    }
}

// The key of the first dirty page, if there is one. None hinders if dirty pages are to go too.
fn what_hinders(memory: LentView<'_>, held: u32, dirty_too: bool) -> Option<PageCacheKey>
    requires { Index (names Key (entries memory.slots.now)) memory.by_key.now held }
    ensures { FirstIs (hindering dirty_too (walk memory.entry.slots.now memory.entry.by_key.now held)) result }
{
    if dirty_too {
        return None;
    }
    first_dirty(memory, held as usize)
}

// The key of the first dirty page of the n pages of the index.
fn first_dirty(memory: LentView<'_>, n: usize) -> Option<PageCacheKey>
    requires { Index (names Key (entries memory.slots.now)) memory.by_key.now n }
    ensures { FirstIs (hindering false (walk memory.entry.slots.now memory.entry.by_key.now n)) result }
{
    for s in &memory.by_key[..n] {
        let e = pool::load(memory.slots, Slot(*s));
        if e.page.is_dirty() {
            return Some(e.key);
        }
    }
    None
}

// Lists every page by ascending key, and leaves the memory as after creation. The capacity and the spill switch stay.
fn empty(memory: &mut LentMemory<'_>, list: &mut [u32], head: PageCache) -> Answered
    requires { ReadyToCall (memory_in memory.old) head list.old }
    ensures same { SameSlices memory.old memory.new }
    ensures outcome { (c : Cache) → Holds (memory_in memory.old) head c → MatchesOutcome (emptied c) list.old (memory_in memory.new) list.new result }
{
    list_handles(list, memory.view(), head.held as usize);
    // Sound memory has the lengths and the capacity that creation asks for, so that it is never refused.
    let Ok(new) = creating::create(memory, head.capacity as u64) else {
        return Answered::plain(Answer::BadLengths, head);
    };
    Answered {
        answer: Answer::Done(0),
        passed: 0,
        listed: head.held,
        head: PageCache {
            spill: head.spill,
            ..new
        },
    }
}

// Writes the handles of the n pages of the index into the first places of the list.
fn list_handles(list: &mut [u32], memory: LentView<'_>, n: usize)
    requires { CanListAll memory.slots.now memory.by_key.now list.old n }
    ensures { Wrote (handles_of (walk memory.entry.slots.now memory.entry.by_key.now n)) list.old list.new }
{
    for (i, s) in memory.by_key[..n].iter().enumerate() {
        list[i] = pool::load(memory.slots, Slot(*s)).handle.0;
    }
}
