// What the caller tells the cache of its pages (rule 12), and the spill switch. Nothing is removed, and no use count changes.
//
//     notices.rt        notify_page_dirty     the estimate alone
//                       notify_page_spilled
//     record.rt         write_record          a page's record, in its place
//     spill_switch.rt   set_spill_enabled     the head alone
//
// A call asks for the slots and the index by key of sound memory (specs/Parts.antt of crate answer), or for the head alone, and tests its
// arguments itself, before the rules. None takes a `LentMemory`, since what is not lent is not changed. Callers may rely on this: for
// every cache that the memory holds at entry, a call comes to the outcome of the model's `step` for it. So a call that a test refuses
// has changed nothing.
#![tactic(auto)]

mod notices;
mod record;
mod spill_switch;

pub use notices::{notify_page_dirty, notify_page_spilled};
pub use record::write_record;
pub use spill_switch::set_spill_enabled;
