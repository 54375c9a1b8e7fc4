// The slots of a pool, packed into words. This is the only code that knows how a slot is packed: four words of 64 bits, drawn at the
// top of crate memory. Every bit of them belongs to a field, so four words are one entry and an entry is four words.
//
// Callers may rely on the contracts of `load` and `store`, which speak of `entries`, the list of the entries that a list of words
// holds: a store alters one entry and keeps the others.
#![tactic(auto)]

mod slots;

pub use slots::{blank_entry, is_blank, load, store};
