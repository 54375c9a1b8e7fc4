// Creation: a cache made of any memory, whatever stood there. It asks nothing of what it is lent.
//
// Callers may rely on `Creates` (specs/Creation.antt), which goes by document 01's number for the answer: a refusal, 16 or 15,
// alters nothing; otherwise every lent word is set, what is left is known to the last word, and it holds a cache with nothing
// in it. `Creates` is deterministic (`created_same`, proofs/NewPool.antt).
#![tactic(auto)]

mod creating;

pub use creating::{CreationError, create};
