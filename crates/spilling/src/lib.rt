// Spilling: whether dirty pages have to be written out so that pages may go again, and which. The cache only says so: it
// reads its slots and its index by key, and changes nothing of them.
//
//     need.rt        needs_spill, count_evictable_pages: rule 13. The count walks over all pages, and comes last: the switch,
//                    the threshold and the estimate say no first where they can
//     selection.rt   check_spill, collect_spillable_pages: rule 14, and the call. One walk, which stops when enough are selected
//
// Callers lend two parts of a sound memory (`PartsOfSound`, specs/Parts.antt), and no `LentView`: they need not have the other two.
// They may rely on the answers being the model's for every cache that the memory holds; `check_spill` makes the test of its list too,
// and comes to the model's step.
#![tactic(auto)]

mod need;
mod selection;

pub use need::{count_evictable_pages, needs_spill};
pub use selection::check_spill;
