// Whether the lent memory is sound. These functions may be handed any memory at all: they ask nothing of its lengths, its
// links, its indexes or its head, and never look outside it.
//
//     lengths.rt    the lengths of the four parts, and the numbers of the head
//     marks.rt      the marks: as many slots are held as the head says, and none is marked beyond the last slot
//     ring.rt       the ring: a walk from the hand that is back there after as many steps as slots are held
//     index.rt      an index: held slots by strictly ascending names, and then zeros
//     slots.rt      the slots: held ones have a good entry, free ones are all zero
//     sound.rt      is_sound: all of these
//
// Each pass is lent the parts that it looks at, one by one: so its contract speaks of no other. `is_sound` is one pass over each part, and
// refuses at the first thing that is wrong. No pass compares two parts in full. A walk that comes back to the hand only at its end meets no
// slot twice, and slots with strictly ascending names are different. So the ring and each index are `held` different slots, all of them
// unmarked; and if exactly `held` slots are unmarked, each of the three has exactly the unmarked ones.
//
// Callers may rely on this: `is_sound` answers yes exactly if the memory is sound (crate memory).
#![tactic(auto)]

mod index;
mod lengths;
mod marks;
mod ring;
mod slots;
mod sound;

pub use lengths::lengths_agree;
pub use sound::is_sound;
