// What a program is given: words, and a file that it reads.
//
//     arguments.rt  the words that a program is run with
//     opening.rt    the file that a word names
//     reading.rt    a piece of a file into memory
//
// Callers may rely on this: a read that failed is not taken for the input's end.
#![tactic(auto)]

mod arguments;
mod opening;
mod reading;

pub use arguments::word_count;
pub use opening::open_argument;
pub use reading::fill;
