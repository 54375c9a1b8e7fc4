// The pass over the slots.
ghost use Rattle.std.specs.Prelude.{get_or};
ghost use Rattle.free_marks.specs.Marks.{bit_at};
ghost use Rattle.pool.specs.Slots.{entries, blank};
ghost use Rattle.pool.specs.Decides.{Decides};
ghost use Rattle.soundness.specs.Checks.{SlotsReadable, SlotReadable, HeldEntryGood, SlotGood, AllSlotsGood};

use page::{PageCache, PageCacheEntry, PageRecord, Slot};

// Whether the entry's fields are in range for a held slot.
fn is_held_entry_good(e: PageCacheEntry) -> bool
    ensures { Decides result (HeldEntryGood e) }
{
    let page = e.page;
    (e.uses <= PageCache::REF_MAX) & (page.flags <= PageRecord::ALL_FLAGS) & (e.spare == 0)
}

// Whether slot s holds what its mark says: nothing if it is free, and a good entry if it is held.
fn is_slot_good(slots: &[u64], marks: &[u64], s: Slot) -> bool
    requires { SlotReadable slots.now marks.now s.0 }
    ensures { Decides result (SlotGood (bit_at marks.now s.0) (get_or (entries slots.now) s.0 blank)) }
{
    if free_marks::is_free(marks, s) {
        return pool::is_blank(slots, s);
    }
    is_held_entry_good(pool::load(slots, s))
}

pub fn all_slots_good(slots: &[u64], marks: &[u64], size: u32) -> bool
    requires { SlotsReadable slots.now marks.now size }
    ensures { Decides result (AllSlotsGood (entries slots.now) marks.now size) }
{
    for s in 0..size {
        if !is_slot_good(slots, marks, Slot(s)) {
            return false;
        }
    }
    true
}
