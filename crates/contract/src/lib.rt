// What a public call does, to any memory. A crate of definitions and theorems, and no code.
//
// Callers may rely on `Called` (specs/Called.antt): either the memory is not sound, and then the answer is 1 and nothing is
// altered; or the answer, the list and every lent word after the call are what the model's `step` says.
//
// What follows from that for every call is proved once, over the contract. It is deterministic: two outcomes that it allows from the
// same memory, head and list are the same outcome (proofs/Same.antt). A refusal by a test alters nothing (Refused.antt). Memory that
// only calls have changed since its creation holds what the model's run of those calls comes to (Following.antt). Demand 3 is proved of
// the public calls too: one eviction and the evictions of any call (specs/Eviction.antt), and the ledger of uses (specs/Ledger.antt).
#![tactic(auto)]
