// A page goes (rule 4): out of the ring, of both indexes and of the estimate. Its slot is all zero and marked free, and the hand moves
// on if it was there.
ghost use Rattle.std.specs.Prelude.{◌≡◌, ◌≤◌};
ghost use Rattle.memory.specs.Memory.{memory_in, SameSlices};
ghost use Rattle.moves.specs.Heads.{head_without};
ghost use Rattle.moves.specs.Moves.{Removable, Removes};

use crate::estimate::count_out;
use memory::LentMemory;
use page::{PageCache, Slot};
use sorted_index::By;

// Removes the page at slot s. The answer is the head after it.
pub fn remove_at_slot(memory: &mut LentMemory<'_>, head: PageCache, s: Slot) -> PageCache
    requires { Removable (memory_in memory.old) head s.0 }
    ensures same { SameSlices memory.old memory.new }
    ensures removed { Removes (memory_in memory.old) head s.0 (memory_in memory.new) result }
{
    let slots = &mut *memory.slots;
    let n = head.held as usize;
    let e = pool::load(slots, s);
    sorted_index::unlist(memory.by_key, slots, By::Key, n, e.key.0);
    sorted_index::unlist(memory.by_handle, slots, By::Handle, n, e.handle.0);
    let after = ring_links::unlink(slots, s);
    free_marks::mark_free(memory.marks, s);
    let estimate = count_out(head.estimate, e.key, e.page);
    head_without(head, s, after, estimate)
}

// The head after the page at slot s went; `after` is the slot that followed it in the ring.
fn head_without(head: PageCache, s: Slot, after: Slot, estimate: u32) -> PageCache
    requires { 1 ≤ head.held }
    ensures { result ≡ head_without head s.0 after.0 estimate }
{
    let mut left = head;
    left.held = head.held - 1;
    left.estimate = estimate;
    if head.held == 1 {
        let none = Slot(0);
        left.hand = none;
        return left;
    }
    if head.hand == s {
        left.hand = after;
        return left;
    }
    left
}
