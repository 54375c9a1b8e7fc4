// Lookup: rule 9 of document 01, with holders as item 1 of document 02 has them. A hit is one search of the index by key and one store:
// whoever looks a page up holds it, so that it stays, until it is released.
//
//     lookup.rt      get            the page under a key, which is touched. One that is neither loaded nor locked is deleted, and absent
//                    peek           the page under a key as it stands, touched only if asked
//     releasing.rt   release_page   one holder of the page under a key less
//
// `get` asks for sound memory (crate memory) and tests the list itself, before the rule; the others ask for the two parts that they are
// lent (specs/Parts.antt of crate answer): they take no `LentMemory`, since what is not lent is not changed. Callers may rely on this:
// for every cache that the memory holds at entry, a call comes to the outcome of the model's `step` for it. The answer, the listed
// handle and the memory at exit are those of that outcome; so a call that a test refuses has changed nothing.
#![tactic(auto)]

mod lookup;
mod releasing;

pub use lookup::{get, peek};
pub use releasing::release_page;
