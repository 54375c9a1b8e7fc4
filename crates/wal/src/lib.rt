// Reads SQLite's write-ahead log ("Database File Format", section 4; document 02, item 2): which of its frames are valid, where
// they end, and which frame has the newest committed copy of a page.
//
//     a log    | header 32 | frame | frame | ..
//
//     find.rt   find_frame: the newest committed frame of a page
//     list.rt   list_frames: page number and commit size of each valid frame
//
// Crate wal_header has the header, wal_frame a frame, wal_frames the scan; what callers need of them is exported here too. Any
// bytes of any length get the answer that specs/ gives them, and nothing is read outside them. What the answers mean for the
// summary that a scan gave is stated in proofs/Placed.antt, proofs/LastCommit.antt and proofs/Reader.antt.
#![tactic(auto)]

mod find;
mod list;

pub use find::{FoundFrame, OtherLog, find_frame};
pub use list::{ListError, list_frames};
pub use wal_frame::{Frame, next_frame};
pub use wal_frames::{Commit, Summary, scan};
pub use wal_header::{Fault, Header, open};
