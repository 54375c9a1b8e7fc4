// The walk round the ring.
ghost use Rattle.pool.specs.Slots.{entries};
ghost use Rattle.pool.specs.Decides.{Decides};
ghost use Rattle.soundness.specs.Checks.{SlotsReadable, Walkable, Walked};

use page::Slot;

// Whether the links lead from the hand through exactly `held` different slots, none of them free, and then back to the hand.
pub fn is_ring(slots: &[u64], marks: &[u64], size: u32, held: u32, hand: Slot) -> bool
    requires { SlotsReadable slots.now marks.now size }
    ensures { Decides result (Walked (entries slots.now) marks.now held hand.0) }
{
    if held == 0 {
        return hand == Slot(0);
    }
    if hand.0 >= size {
        return false;
    }
    goes_round(slots, marks, size, held, hand)
}

// The same if something is held and the hand is in range. It ends whatever the links are: it takes `held` steps at most.
fn goes_round(slots: &[u64], marks: &[u64], size: u32, held: u32, hand: Slot) -> bool
    requires { Walkable slots.now marks.now size held hand.0 }
    ensures { Decides result (Walked (entries slots.now) marks.now held hand.0) }
{
    let mut at = hand;
    for passed in 0..held {
        if free_marks::is_free(marks, at) {
            return false;
        }
        let next = ring_links::next(slots, at);
        if next.0 >= size {
            return false;
        }
        let back = pool::load(slots, next).prev;
        if back != at {
            return false;
        }
        if next == hand {
            return passed + 1 == held;
        }
        at = next;
    }
    false
}
