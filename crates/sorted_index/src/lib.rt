// The sorted indexes of a pool: its held slots in the order of their keys, or of their handles.
//
//     place    0    1    2   ..   n-1   n   ..   S-1
//     order    a    b    c   ..    z    0   ..    0       slots, with name(a) < name(b) < name(c) < .. < name(z)
//
// An order holds slots and no names: a name is read from the slot's entry. So the same code serves both indexes, and `By` says
// which name counts. Slot 0 may be held, so a 0 doesn't say where the used part ends: the caller knows n.
//
//     search.rt     By, name, find: the place of a name, or the gap that it would go into, by halving; gap: of a new name
//     shift.rt      insert_at, remove_at: a place is opened or closed, and what stands above it moves by one
//     enlisting.rt  enlist, unlist: a slot comes in or goes out. The forms with _at are told the place, and search nothing
//
// Callers may rely on `Listed` (specs/Listed.antt): the used part is exactly the seats of the ring, by strictly ascending
// names, and all else is 0. `enlist` and `unlist` keep it, and so does every change to a slot that is no seat or that
// leaves the seat's name alone (proofs/Listed.antt, proofs/Names.antt). The seats and their names determine the whole order: two
// orders of one length that list the same seats by the same names are equal (proofs/Once.antt).
#![tactic(auto)]

mod enlisting;
mod search;
mod shift;

pub use enlisting::{enlist, enlist_at, unlist, unlist_at};
pub use search::{By, find, gap, name};
pub use shift::{insert_at, remove_at};
