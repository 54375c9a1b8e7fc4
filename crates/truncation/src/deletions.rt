// The sweeping deletions (rule 11): a walk over the index by key that deletes the pages which are chosen, up to the first
// refusal.
ghost use Rattle.std.specs.Prelude.{Bool, length};
ghost use Rattle.pool.specs.Slots.{entries};
ghost use Rattle.sorted_index.specs.Index.{Index};
ghost use Rattle.sorted_index.specs.Names.{names};
ghost use Rattle.sorted_index.specs.declared.search.By.TheVariants.{Key};
ghost use Rattle.model.specs.Cache.{Cache};
ghost use Rattle.model.specs.Call as call;
ghost use Rattle.model.specs.Rules.{delete_each};
ghost use Rattle.model.specs.Row.{Page, sorted_by_key, those};
ghost use Rattle.model.specs.Step.{step};
ghost use Rattle.memory.specs.Memory.{memory_in, SameSlices};
ghost use Rattle.memory.specs.Holds.{Holds, Sound};
ghost use Rattle.answer.specs.Answer.{MatchesOutcome};
ghost use Rattle.truncation.specs.Deletions.{FirstAbove, Walkable, Chooses};

use answer::{Answer, Answered};
use memory::{LentMemory, LentView};
use page::{PageCache, PageCacheEntry, Slot};
use sorted_index::By;

// Deletes the pages with a key above the limit.
pub fn truncate(
    memory: &mut LentMemory<'_>,
    list: &mut [u32],
    head: PageCache,
    limit: u64,
) -> Answered
    requires { Sound (memory_in memory.old) head }
    ensures same { SameSlices memory.old memory.new }
    ensures outcome { (c : Cache) → Holds (memory_in memory.old) head c → MatchesOutcome (step (call.truncate limit (length list.old)) c) list.old (memory_in memory.new) list.new result }
{
    if list.len() < head.held as usize {
        return Answered::plain(Answer::ShortList, head);
    }
    let from = first_above(memory.view(), head.held, limit);
    delete_chosen(
        memory,
        list,
        head,
        from,
        |e: PageCacheEntry| limit < u64::from(e.key.0),
    )
}

// Deletes the clean pages that were read from a frame of the log above the limit.
pub fn delete_clean_pages_after_wal_frame(
    memory: &mut LentMemory<'_>,
    list: &mut [u32],
    head: PageCache,
    limit: u64,
) -> Answered
    requires { Sound (memory_in memory.old) head }
    ensures same { SameSlices memory.old memory.new }
    ensures outcome { (c : Cache) → Holds (memory_in memory.old) head c → MatchesOutcome (step (call.remove_frames limit (length list.old)) c) list.old (memory_in memory.new) list.new result }
{
    if list.len() < head.held as usize {
        return Answered::plain(Answer::ShortList, head);
    }
    delete_chosen(memory, list, head, 0, |e: PageCacheEntry| {
        let page = e.page;
        !page.is_dirty() & page.has_wal_tag() & (limit < page.frame)
    })
}

// A place of the index before which no key is above the limit.
fn first_above(memory: LentView<'_>, held: u32, limit: u64) -> usize
    requires { Index (names Key (entries memory.slots.now)) memory.by_key.now held }
    ensures { FirstAbove memory.entry.slots.now memory.entry.by_key.now held limit result }
{
    let Ok(limit) = u32::try_from(limit) else {
        // Every key fits in 32 bits.
        return held as usize;
    };
    match sorted_index::find(memory.by_key, memory.slots, By::Key, held as usize, limit) {
        Ok(at) => at + 1,
        Err(at) => at,
    }
}

// Deletes the pages that are chosen, up to the first refusal. The walk goes from place `from` on, before which no page is chosen. A
// deletion closes its place, and the next page comes to stand there.
fn delete_chosen<F: Fn(PageCacheEntry) -> bool>(
    memory: &mut LentMemory<'_>,
    list: &mut [u32],
    head: PageCache,
    from: usize,
    is_chosen: F,
) -> Answered
    requires walkable { Walkable (memory_in memory.old) head list.old from }
    requires callable { F.IsAlwaysCallable is_chosen }
    ensures same { SameSlices memory.old memory.new }
    ensures outcome { (test : Page → Bool) → Chooses (F.post is_chosen) (memory_in memory.old) from test → (c : Cache) → Holds (memory_in memory.old) head c → MatchesOutcome (delete_each (those test (sorted_by_key c.row)) c) list.old (memory_in memory.new) list.new result }
{
    let mut left = head;
    let mut count: usize = 0;
    let mut i = from;
    // No `for` over the places: a deletion closes its place, and then the same place is looked at again.
    while i < left.held as usize {
        let by_key = &mut *memory.by_key;
        let slots = &mut *memory.slots;
        let s = Slot(by_key[i]);
        let e = pool::load(slots, s);
        if !is_chosen(e) {
            i += 1;
            continue;
        }
        match deletion::delete_page(memory, list, count, left, s) {
            Ok(next) => {
                count += 1;
                left = next;
            }
            Err(why) => {
                return Answered {
                    answer: why,
                    passed: 0,
                    listed: count as u32,
                    head: left,
                };
            }
        }
    }
    Answered {
        answer: Answer::Done(0),
        passed: 0,
        listed: count as u32,
        head: left,
    }
}
