// The ring of a pool: the held slots in sweep order, each with links to the one after it and the one before it.
//
//     .. <-> a <-> b <-> c <-> ..       next of a is b, prev of b is a, and from the last one back to the first
//
// Callers may rely on the contracts, which speak of the two columns of links that the entries have (specs/Links.antt): `link_first`,
// `link_after` and `unlink` make of a ring the ring with one slot more or less, and alter no other field. What a ring is: `Ring`,
// specs/Ring.antt.
#![tactic(auto)]

mod links;

pub use links::{link_after, link_first, next, unlink};
