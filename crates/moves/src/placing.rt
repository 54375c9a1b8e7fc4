// A new page comes (rule 1): at the lowest free slot, into the ring directly after the hand, into both indexes and the estimate.
ghost use Rattle.std.specs.Prelude.{◌≡◌, ◌<◌};
ghost use Rattle.page.specs.Cache.{max_slots};
ghost use Rattle.pool.specs.Slots.{entries};
ghost use Rattle.memory.specs.Memory.{memory_in, SameSlices};
ghost use Rattle.moves.specs.Heads.{head_with, seated_at};
ghost use Rattle.moves.specs.Moves.{Placeable, Places, Seatable};

use crate::estimate::count_in;
use crate::finding::Gaps;
use memory::LentMemory;
use page::{PageCache, PageCacheEntry, PageCacheKey, PageHandle, PageRecord, Slot};

// Places a page that was never touched, with its names in their gaps. A first one is the hand, another goes directly after the
// hand. The answer is the head after it.
pub fn place(
    memory: &mut LentMemory<'_>,
    head: PageCache,
    gaps: Gaps,
    key: PageCacheKey,
    handle: PageHandle,
    page: PageRecord,
) -> PageCache
    requires { Placeable (memory_in memory.old) head gaps key.0 handle.0 page }
    ensures same { SameSlices memory.old memory.new }
    ensures placed { Places (memory_in memory.old) head key.0 handle.0 page (memory_in memory.new) result }
{
    let n = head.held as usize;
    let marks = &mut *memory.marks;
    let s = free_marks::lowest_free(marks);
    free_marks::mark_held(marks, s);
    sorted_index::enlist_at(memory.by_key, n, gaps.key, s);
    sorted_index::enlist_at(memory.by_handle, n, gaps.handle, s);
    let e = PageCacheEntry::new(key, handle, page);
    seat(memory.slots, head, s, e);
    let estimate = count_in(head.estimate, key, page);
    head_with(head, s, estimate)
}

// Puts e in at slot s, into the ring that begins at the head's hand.
fn seat(slots: &mut [u64], head: PageCache, s: Slot, e: PageCacheEntry)
    requires { Seatable (entries slots.old) head s.0 }
    ensures { entries slots.new ≡ seated_at (entries slots.old) head s.0 e }
{
    if head.held != 0 {
        ring_links::link_after(slots, head.hand, s, e);
        return;
    }
    ring_links::link_first(slots, s, e);
}

// The head after a page came to slot s.
fn head_with(head: PageCache, s: Slot, estimate: u32) -> PageCache
    requires { head.held < max_slots }
    ensures { result ≡ head_with head s.0 estimate }
{
    let mut grown = head;
    grown.held = head.held + 1;
    grown.estimate = estimate;
    if head.held == 0 {
        grown.hand = s;
        return grown;
    }
    grown
}
