// Eviction: which page goes when room is needed, and its removal.
//
// The pages stand in a ring, and the hand is at one of them. A sweep looks at one page after another from the hand on:
//
//     may it go?   uses left?     the look
//     no                          passes it
//     yes          yes            passes it, and it loses a use
//     yes          none           takes it: the hand comes to rest at the page after it
//
// After four rounds in vain the answer is Full. Use counts are at most 3, so that this happens only if no page may go, and
// then nothing has changed.
//
//     sweeping.rt      sweep: the looks, which write use counts alone
//     evicting.rt      evict_one: a sweep, and the removal of the page that it finds
//     making_room.rt   evict_to, make_room_for: evictions until few enough are held, with the list of the handles that went
//
// Every function asks for sound memory (crate memory) and leaves it sound, but for the hand after `sweep`, which its caller
// has to move to where the sweep ended. Callers may rely on:
//     sweep            4n looks of the model (specs/Sweep.antt)
//     evict_one        demand 3 in its own words (specs/Evict.antt), which comes to one step of the model
//                      (`evicted_is_the_sweep`, proofs/Step.antt)
//     evict_to         the model's `evict_to`, and make_room_for its `make_room` (specs/Room.antt). The handles follow those
//                      that the list has already, and every other place of it keeps its value
#![tactic(auto)]

mod evicting;
mod making_room;
mod sweeping;

pub use evicting::{Evicted, Full, evict_one};
pub use making_room::{Room, evict_to, make_room_for};
pub use sweeping::{Swept, sweep};
