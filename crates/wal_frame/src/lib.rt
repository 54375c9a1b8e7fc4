// A frame of SQLite's write-ahead log: a header of 24 bytes and a page ("Database File Format", 4.1; document 02, item 2).
//
//     frame.rt   Frame: what its header says; next_frame: the frame that some bytes begin with, if it is valid
//
//     | page number 4 | commit size 4 | salts 4 + 4 | sums 4 + 4 | page |
//
// Callers may rely on `next_frame` for any bytes of any length, and for any header: it answers what `next_at` (specs/Frame.antt)
// says.
#![tactic(auto)]

mod frame;

pub use frame::{Frame, frame_at, length, next_at, next_frame};
