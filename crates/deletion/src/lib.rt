// Deletion: rule 8 of document 01.
//
//     delete_page   at a slot, for every call that deletes: the page goes and is listed, or it stays and the error is the answer that
//                   says why
//     delete_at     the same as the end of a call: `done` is answered, or why not
//     delete        the call: the page under a key. An absent key is done
//
// `delete` asks for sound memory (crate memory) and tests the list itself, before the rule. Callers may rely on this: for
// every cache that the memory holds at entry, it comes to the outcome of the model's `step`. The answer, the listed handle
// and the memory at exit are those of that outcome; so a call that a test refuses has changed nothing. The other two ask for
// a page at the slot and a place for its handle, and come to the model's `deleting`. A refused deletion changes nothing.
#![tactic(auto)]

mod deletion;

pub use deletion::{delete, delete_at, delete_page};
