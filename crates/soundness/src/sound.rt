// The soundness test.
ghost use Rattle.pool.specs.Decides.{Decides};
ghost use Rattle.memory.specs.Memory.{memory_seen, WordsFit};
ghost use Rattle.memory.specs.Holds.{Sound};

use crate::index::lists;
use crate::lengths::{in_range, lengths_agree};
use crate::marks::marks_agree;
use crate::ring::is_ring;
use crate::slots::all_slots_good;
use free_marks::words_fit;
use memory::LentView;
use page::PageCache;
use sorted_index::By;

// Whether the memory is sound. The cheapest pass comes first.
pub fn is_sound(memory: LentView<'_>, head: PageCache) -> bool
    ensures decides { Decides result (Sound (memory_seen memory.entry) head) }
    ensures words { WordsFit (memory_seen memory.entry) }
{
    let LentView {
        slots,
        by_key,
        by_handle,
        marks,
    } = memory;
    words_fit(slots);
    words_fit(marks);
    if !lengths_agree(memory) {
        return false;
    }
    let size = by_key.len() as u32;
    if !in_range(head, size) {
        return false;
    }
    if !marks_agree(marks, size, head.held) {
        return false;
    }
    if !is_ring(slots, marks, size, head.held, head.hand) {
        return false;
    }
    let n = head.held as usize;
    if !lists(by_key, slots, marks, By::Key, n) {
        return false;
    }
    if !lists(by_handle, slots, marks, By::Handle, n) {
        return false;
    }
    all_slots_good(slots, marks, size)
}
