// What a program writes: its output, and its messages.
//
//     output.rt    Output: what goes to standard output, put together in memory and written out when it is full and at the end
//     messages.rt  a line to standard error, at once; Reason: why the system refused
//
// Callers may rely on this: what is put into an `Output` is written out in its order, and nothing is but by `flush`, by `begin_line`, or
// where there is no room for more.
#![tactic(auto)]

mod messages;
mod output;

pub use messages::{Reason, say};
pub use output::{Output, ROOM};
