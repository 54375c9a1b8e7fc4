// Another capacity (rule 10).
ghost use Rattle.std.specs.Prelude.{◌≡◌, ◌<◌, ◌^◌, length};
ghost use Rattle.model.specs.Cache.{Cache};
ghost use Rattle.model.specs.Rules.{on_resize};
ghost use Rattle.model.specs.Call as call;
ghost use Rattle.model.specs.Step.{step};
ghost use Rattle.memory.specs.Memory.{memory_in, SameSlices};
ghost use Rattle.memory.specs.Holds.{Holds, Sound};
ghost use Rattle.answer.specs.Answer.{MatchesOutcome};
ghost use Rattle.resizing.specs.Resize.{Resizable, resized_as};

use answer::{Answer, Answered};
use eviction::Room;
use memory::LentMemory;
use page::PageCache;

// Evicts until no more pages are held than the new capacity, and sets it. If none of those that are left may go, the capacity
// stays as it was, and the evictions stand.
pub fn resize(
    memory: &mut LentMemory<'_>,
    list: &mut [u32],
    head: PageCache,
    capacity: u64,
) -> Answered
    requires { Sound (memory_in memory.old) head }
    ensures same { SameSlices memory.old memory.new }
    ensures outcome { (c : Cache) → Holds (memory_in memory.old) head c → MatchesOutcome (step (call.resize capacity (length list.old)) c) list.old (memory_in memory.new) list.new result }
{
    if capacity > memory.by_key.len() as u64 {
        return Answered::plain(Answer::TooLarge, head);
    }
    if list.len() < head.held as usize {
        return Answered::plain(Answer::ShortList, head);
    }
    resize_within(memory, list, head, capacity as u32)
}

// The same for a capacity that the slots allow, and a list that is long enough.
fn resize_within(
    memory: &mut LentMemory<'_>,
    list: &mut [u32],
    head: PageCache,
    capacity: u32,
) -> Answered
    requires { Resizable (memory_in memory.old) head list.old capacity }
    ensures same { SameSlices memory.old memory.new }
    ensures outcome { (c : Cache) → Holds (memory_in memory.old) head c → MatchesOutcome (on_resize capacity c) list.old (memory_in memory.new) list.new result }
{
    if capacity == head.capacity {
        return Answered::plain(Answer::Done(0), head);
    }
    let room = eviction::evict_to(memory, list, 0, head, capacity);
    resized(room, capacity)
}

// What is answered after the evictions.
fn resized(room: Room, capacity: u32) -> Answered
    requires { room.listed < 2 ^ 32 }
    ensures { result ≡ resized_as room.full room capacity }
{
    let mut head = room.head;
    let answer = if room.full {
        Answer::PendingEvictions
    } else {
        head.capacity = capacity;
        Answer::Done(0)
    };
    Answered {
        answer,
        passed: room.passed,
        listed: room.listed as u32,
        head,
    }
}
