// The marks of a pool: one bit for each slot, 1 if the slot is free, 64 to a word, the lowest slot in the lowest bit.
//
// Callers may rely on the contracts, which speak of `bit_at`, the mark of a slot (specs/Marks.antt): a mark that is set or cleared
// leaves the others alone, `lowest_free` gives the lowest-numbered slot that is marked, and `count_free` how many are.
#![tactic(auto)]

mod marks;

pub use marks::{count_free, is_free, lowest_free, mark_free, mark_held, words_fit};
