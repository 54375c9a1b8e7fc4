// An insertion: the tests that come before the rules, in their order, and then the rules.
ghost use Rattle.std.specs.Prelude.{length};
ghost use Rattle.model.specs.Cache.{Cache};
ghost use Rattle.model.specs.Call.{insert};
ghost use Rattle.model.specs.Step.{step};
ghost use Rattle.memory.specs.Memory.{memory_in, SameSlices};
ghost use Rattle.memory.specs.Holds.{Holds, Sound};
ghost use Rattle.answer.specs.Answer.{MatchesOutcome};
ghost use Rattle.insertion.specs.Mode.{insertion_of};

use crate::by_key::{insert_by_key, insert_found};
use crate::mode::NewPage;
use answer::{Answer, Answered};
use memory::LentMemory;
use moves::HandleSeat;
use page::{PageCache, PageRecord};

// Inserts a page as its mode says. The test for the handle is a search, and what it finds is used: the key's page, if the handle is that
// page's, or the gap that the handle goes into.
pub fn insert_page(
    memory: &mut LentMemory<'_>,
    list: &mut [u32],
    head: PageCache,
    asked: NewPage,
) -> Answered
    requires { Sound (memory_in memory.old) head }
    ensures same { SameSlices memory.old memory.new }
    ensures outcome { (c : Cache) → Holds (memory_in memory.old) head c → MatchesOutcome (step (insert (insertion_of asked.mode) asked.key.0 asked.handle.0 asked.page (length list.old)) c) list.old (memory_in memory.new) list.new result }
{
    memory.words_fit();
    let flags = asked.page.flags;
    if PageRecord::ALL_FLAGS < flags {
        return Answered::plain(Answer::BadRecord, head);
    }
    if list.len() < head.held as usize {
        return Answered::plain(Answer::ShortList, head);
    }
    let seen = memory.view();
    match moves::seat_of_handle(
        seen.by_handle,
        seen.slots,
        head.held,
        asked.key,
        asked.handle,
    ) {
        HandleSeat::Elsewhere => Answered::plain(Answer::HandleElsewhere, head),
        HandleSeat::UnderKey(s) => insert_found(memory, list, head, s, asked),
        HandleSeat::Nowhere(gap) => insert_by_key(memory, list, head, gap, asked),
    }
}
