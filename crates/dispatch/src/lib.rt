// A replay record carried out: the call that it asks for, on sound memory, or a creation, on any.
//
//     operations.rt   dispatch: which call it is, by the operation
//     creation.rt     create: a creation, with what it comes to as an answer
//
// Callers see to it that the memory is sound if the operation is a call, 1 to 17 (`Runnable`, specs/Runs.antt): one test may
// stand before many records. They may rely on `Ran`: a call comes to the model's step, a creation to what `Creates` says, and
// an operation above 17 is answered with 17 and alters nothing.
#![tactic(auto)]

mod creation;
mod operations;

pub use operations::dispatch;
