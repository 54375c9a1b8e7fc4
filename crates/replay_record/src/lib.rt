// A replay record: 32 bytes, little-endian, that ask for one call (document 01, "The replay program").
//
//     record.rt   Record: what the bytes say, field by field; decode: from bytes to a record, or none if they are bad
//     number.rt   number_at: a number of some bytes, lowest byte first
//
// Callers may rely on `decode` for any bytes of any length: it answers what `decoded` (specs/Fields.antt) says. Bytes are bad
// if there are not 32 of them, if the option is above 1, or if the tail is not zero. The operation is handed on untested: crate
// dispatch refuses those above 17. specs/Request.antt says what a record asks for.
#![tactic(auto)]

mod number;
mod record;

pub use record::{Record, decode};
