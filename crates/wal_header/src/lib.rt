// The header of SQLite's write-ahead log: 32 bytes ("Database File Format", 4.1; document 02, item 2).
//
//     header.rt   Header: what it says; Fault: what can be wrong with it; open: the header that a log begins with, or its first fault
//
//     | magic 4 | version 4 | page size 4 | checkpoint 4 | salts 4 + 4 | sums 4 + 4 |
//
// Callers may rely on `open` for any bytes of any length: it answers what `opened` (specs/Header.antt) says.
#![tactic(auto)]

mod header;

pub use header::{Fault, HEADER_LENGTH, Header, open};
