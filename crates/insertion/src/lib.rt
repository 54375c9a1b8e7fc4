// Insertion: rules 5, 6 and 7 of document 01, in its three forms, with the tests that come before the rules.
//
//     the key              plain                     forced                    upsert
//     absent               room is made, or Full     room is made, or a free   as forced
//                                                    slot is taken, or NoSlot
//     stale                deleted, then as absent; or rule 8 refuses
//     there, same handle   touched, KeyExists        the same                  touched and replaced in place
//     there, another one   OtherPage                 the same                  touched and replaced in place
//
//     calls.rt     insert_page: the call, with its tests
//     by_key.rt    what stands under the key decides
//     absent.rt    under an absent key (rules 5 and 7)
//     stale.rt     under the key of a page that is neither loaded nor locked, which is deleted first (rule 6)
//     present.rt   under the key of any other page (rule 6)
//     mode.rt      what an insertion is asked for, and what its mode decides
//
// The three forms are one call, and the mode of the `NewPage` says which it is. It asks for sound memory and leaves it sound. Callers may
// rely on its being the model's step: its answer, the pages passed, the handles listed and the cache that the memory holds afterwards.
#![tactic(auto)]

mod absent;
mod by_key;
mod calls;
mod mode;
mod present;
mod stale;

pub use calls::insert_page;
pub use mode::{InsertMode, NewPage};
