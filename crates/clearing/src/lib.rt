// The removal of all pages (rule 11).
//
//     clearing.rt    clear    every page is listed by ascending key, and the memory is as after creation
//
// The call asks for sound memory (crate memory), and makes the test of its list itself, before the rule. Callers may rely on
// this: for every cache that the memory holds at entry, it comes to the outcome of the model's `step` for it. The answer, the
// listed handles and the memory at exit are those of that outcome, and every other place of the list keeps its value. So a
// call that is refused, for a list that is too short or for a dirty page, has changed nothing.
#![tactic(auto)]

mod clearing;

pub use clearing::clear;
