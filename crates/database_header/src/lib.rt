// The header of a database file: its first 100 bytes ("Database File Format", 1.3).
//
//     header.rt   Database: what it says of the pages; Fault: what can be wrong with it; open: the header that a file begins with,
//                 or its first fault
//
//     | magic 16 | page size 2 | .. 2 | reserved 1 | .. 79 |
//
// Callers may rely on `open` for any bytes of any length: it answers what `Opens` (specs/Header.antt) says. Only what the checks of
// pages need is read: the other fields may hold anything.
#![tactic(auto)]

mod header;

pub use header::{Database, Fault, HEADER_LENGTH, open};
