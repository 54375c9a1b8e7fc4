// Another capacity, and the eviction that is asked for: the calls that evict and do nothing else.
//
//     resizing.rt    resize    rule 10: evictions until no more pages are held than the new capacity
//     evicting.rt    evict     one eviction
//
// Each asks for sound memory (crate memory), and makes the tests of its arguments itself, before the rules. Callers may rely
// on this: for every cache that the memory holds at entry, a call comes to the outcome of the model's `step` for it. The
// answer, the pages passed, the listed handles and the memory at exit are those of that outcome, and every other place of the
// list keeps its value. So a call that a test refuses has changed nothing. If a resize needs another eviction and no page may
// go, the evictions before that stand and are listed, and the capacity stays.
#![tactic(auto)]

mod evicting;
mod resizing;

pub use evicting::evict;
pub use resizing::resize;
