// Rule 14: the pages to spill, and the call.
ghost use Rattle.std.specs.Prelude.{◌≡◌, List, ℕ, length};
ghost use Rattle.model.specs.Cache.{Cache};
ghost use Rattle.model.specs.Call.{spill};
ghost use Rattle.model.specs.Spill.{selection, on_spill};
ghost use Rattle.model.specs.Step.{step};
ghost use Rattle.memory.specs.Memory.{memory_of};
ghost use Rattle.memory.specs.Holds.{Holds};
ghost use Rattle.answer.specs.Answer.{MatchesOutcome};
ghost use Rattle.spilling.specs.Parts.{PartsOfSound, CanListSelected, Selected};

use crate::need::needs_spill;
use answer::{Answer, Answered};
use page::{PageCache, Slot};
use pool::load;

// Lists the handles of the first `most` pages by key that a spill may select, and says how many there are.
fn collect_spillable_pages(
    slots: &[u64],
    by_key: &[u32],
    list: &mut [u32],
    held: u32,
    most: u64,
) -> u32
    requires { CanListSelected slots.now by_key.now held list.old }
    ensures { (by_handle marks : List ℕ) (head : PageCache) (c : Cache) → Holds (memory_of slots.now by_key.now by_handle marks) head c → head.held ≡ held → Selected (selection most c) list.old list.new result }
{
    let mut listed: u32 = 0;
    for s in &by_key[..held as usize] {
        if most <= listed as u64 {
            return listed;
        }
        let e = load(slots, Slot(*s));
        if PageCache::spillable(e.key, e.page) {
            list[listed as usize] = e.handle.0;
            listed += 1;
        }
    }
    listed
}

// Which pages to write out, if a spill is needed: `most` of them at most.
pub fn check_spill(
    slots: &[u64],
    by_key: &[u32],
    list: &mut [u32],
    head: PageCache,
    most: u64,
) -> Answered
    requires { PartsOfSound slots.now by_key.now head.held }
    ensures { (by_handle marks : List ℕ) (c : Cache) → Holds (memory_of slots.now by_key.now by_handle marks) head c → MatchesOutcome (step (spill most (length list.old)) c) list.old (memory_of slots.now by_key.now by_handle marks) list.new result }
{
    if list.len() < head.held as usize {
        return Answered::plain(Answer::ShortList, head);
    }
    check_spill_listed(slots, by_key, list, head, most)
}

// The same for a list that is long enough.
fn check_spill_listed(
    slots: &[u64],
    by_key: &[u32],
    list: &mut [u32],
    head: PageCache,
    most: u64,
) -> Answered
    requires { CanListSelected slots.now by_key.now head.held list.old }
    ensures { (by_handle marks : List ℕ) (c : Cache) → Holds (memory_of slots.now by_key.now by_handle marks) head c → MatchesOutcome (on_spill most c) list.old (memory_of slots.now by_key.now by_handle marks) list.new result }
{
    if !needs_spill(slots, by_key, head) {
        return Answered::plain(Answer::NotNeeded, head);
    }
    let listed = collect_spillable_pages(slots, by_key, list, head.held, most);
    if listed == 0 {
        return Answered::plain(Answer::NoneSelected, head);
    }
    Answered {
        answer: Answer::Done(listed),
        passed: 0,
        listed,
        head,
    }
}
