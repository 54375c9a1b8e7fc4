// The running checksum of SQLite's write-ahead log, and the numbers that it is made of ("Database File Format", 4.1 and 4.2).
//
//     number.rt   number_at: a big-endian number of 4 bytes; word_at: a word that is summed, in the log's order
//     sums.rt     Sums: the two running sums; sums_at: as they are stored; checksum: the sums after some more bytes
//
// Whoever reads a log and whoever writes one call the same `checksum`. It equals `checksum` of specs/Checksum.antt, the document's
// loop, from any place, over any number of 8-byte pairs, from any sums.
#![tactic(auto)]

mod number;
mod sums;

pub use number::number_at;
pub use sums::{Sums, checksum, same, sums_at};
