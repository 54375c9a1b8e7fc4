// The spill switch, which the head alone knows.
ghost use Rattle.model.specs.Cache.{Cache};
ghost use Rattle.model.specs.Call.{switch};
ghost use Rattle.model.specs.Step.{step};
ghost use Rattle.memory.specs.Memory.{Memory};
ghost use Rattle.memory.specs.Holds.{Holds};
ghost use Rattle.answer.specs.Answer.{Follows};

use answer::{Answer, Answered};
use page::PageCache;

// Turns spilling on or off.
pub fn set_spill_enabled(head: PageCache, on: bool) -> Answered
    ensures { (m : Memory) (c : Cache) → Holds m head c → Follows (step (switch on) c) m result }
{
    let mut switched = head;
    switched.spill = u8::from(on);
    Answered::plain(Answer::Done(0), switched)
}
