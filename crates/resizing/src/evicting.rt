// One eviction, asked for.
ghost use Rattle.std.specs.Prelude.{length};
ghost use Rattle.model.specs.Cache.{Cache};
ghost use Rattle.model.specs.Rules.{on_evict_one};
ghost use Rattle.model.specs.Call as call;
ghost use Rattle.model.specs.Step.{step};
ghost use Rattle.memory.specs.Memory.{memory_in, SameSlices};
ghost use Rattle.memory.specs.Holds.{Holds, Sound};
ghost use Rattle.answer.specs.Answer.{ReadyToCall, MatchesOutcome};

use answer::{Answer, Answered};
use memory::LentMemory;
use page::PageCache;

// Evicts one page, if one may go, and lists its handle.
pub fn evict(memory: &mut LentMemory<'_>, list: &mut [u32], head: PageCache) -> Answered
    requires { Sound (memory_in memory.old) head }
    ensures same { SameSlices memory.old memory.new }
    ensures outcome { (c : Cache) → Holds (memory_in memory.old) head c → MatchesOutcome (step (call.evict_one (length list.old)) c) list.old (memory_in memory.new) list.new result }
{
    if list.len() < head.held as usize {
        return Answered::plain(Answer::ShortList, head);
    }
    evict_listed(memory, list, head)
}

// The same for a list that is long enough.
fn evict_listed(memory: &mut LentMemory<'_>, list: &mut [u32], head: PageCache) -> Answered
    requires { ReadyToCall (memory_in memory.old) head list.old }
    ensures same { SameSlices memory.old memory.new }
    ensures outcome { (c : Cache) → Holds (memory_in memory.old) head c → MatchesOutcome (on_evict_one c) list.old (memory_in memory.new) list.new result }
{
    if head.held == 0 {
        return Answered::plain(Answer::Empty, head);
    }
    match eviction::evict_one(memory, head) {
        Ok(gone) => {
            list[0] = gone.handle.0;
            Answered {
                answer: Answer::Done(0),
                passed: gone.passed,
                listed: 1,
                head: gone.head,
            }
        }
        Err(full) => Answered {
            answer: Answer::Full,
            passed: full.passed,
            listed: 0,
            head,
        },
    }
}
