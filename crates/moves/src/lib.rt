// The moves of a cache. A move is a small change of sound memory that takes a cache of the model to the one that the model's word
// for it gives:
//
//     placing.rt    place              enter        a new page comes
//     removing.rt   remove_at_slot     leave        a page goes
//     changing.rt   touch_at           touch        one touch
//                   rewrite_at         rewrite      another record
//                   replace_at         replace      another handle and another record
//
// Before them comes a search, and those that change the head follow the estimate's rule:
//
//     finding.rt    seat_of            find         where a key stands
//                   seat_of_handle     under_other   where a handle stands, and whether under another key
//                   find_gaps                       where a new key and a new handle go
//     estimate.rt   the estimate's rule
//
// Callers may rely on this: if the memory holds a cache before the move, it holds the changed cache after it, with the head
// that comes back. No move searches for the page that it changes: it is told the slot, and the caller has found the page
// there (`StandsAt`, specs/Moves.antt); `place` is told the gaps of the new page's names (`GapsOf`). What a move isn't lent it doesn't
// change, and its contract holds whatever stands there.
//
// No move tests anything that a rule asks. Whether the page may be deleted, whether there is room, whether the handle is
// free: the calls have asked before.
#![tactic(auto)]

mod changing;
mod estimate;
mod finding;
mod placing;
mod removing;

pub use changing::{replace_at, rewrite_at, touch_at};
pub use estimate::{count_down, count_in, count_out, count_over, count_up};
pub use finding::{Gaps, HandleSeat, find_gaps, seat_of, seat_of_handle};
pub use placing::place;
pub use removing::remove_at_slot;
