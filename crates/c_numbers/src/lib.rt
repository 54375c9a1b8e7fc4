// Heads and answers as numbers, for programs in C. Structs and enums can't cross to them, so the functions that crate page_cache_c
// exports take a head and hand over an answer as numbers of 64 bits, and a code as one of 32:
//
//     the head      | capacity | held | hand | spill switch | estimate |
//     the answer    | code | value | passed | held | the hand's key, or none | listed |
//
//     heads.rt     read_head, put_head; the head after a creation and after any record
//     answers.rt   put_answer; the code of a listing
//
// They stand in a crate of their own, so that they are proved without the calls. A head is an array of five numbers, and an answer has to
// be of six, with any contents. Numbers that are no head are read as a head with which no memory is sound. Callers may rely on
// specs/Head.antt and specs/Put.antt, and on this: the hand's key in an answer is that of the first page in sweep order, if the
// memory holds a cache (proofs/Hand.antt).
#![tactic(auto)]

mod answers;
mod heads;

pub use answers::{listing_code, put_answer};
pub use heads::{HEAD, put_answered, put_created, put_head, read_head};
