// The scan of SQLite's write-ahead log: its valid frames, up to the first bad one ("Database File Format", 4.1; document 02,
// item 2).
//
//     scanning.rt   Summary: what was read; scan: all of a log that is lent whole; start and add_frame: the same, frame by frame
//
// Callers may rely on `scan` for any bytes of any length: it answers what `scanned` (specs/Scan.antt) says. What follows for logs
// that are cut, damaged or grown is stated in proofs/CutLog.antt, over specs/Cut.antt.
#![tactic(auto)]

mod scanning;

pub use scanning::{Commit, Summary, add_frame, scan, start};
