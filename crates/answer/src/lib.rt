// What a call answers: one enum for every answer of document 01, and the struct that a call hands back.
//
//     answer.rt    Answer: each of 01's answers, with the value that goes with it
//     answered.rt  Answered: the answer, the pages passed, how many handles were listed, and the head after the call
//     numbers.rt   code_of, value_of: 01's number and value for each answer
//
// specs/Answer.antt gives 01's number and value for each case, and says what it means that a call came to an outcome of
// the model. specs/Parts.antt is the contract of calls that are lent two parts of the memory.
#![tactic(auto)]

mod answer;
mod answered;
mod numbers;

pub use answer::Answer;
pub use answered::Answered;
pub use numbers::{code_of, value_of};
