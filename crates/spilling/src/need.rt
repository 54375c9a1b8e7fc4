// Rule 13: whether a spill is needed.
ghost use Rattle.std.specs.Prelude.{◌≡◌, List, ℕ, ◌-◌, length};
ghost use Rattle.model.specs.Cache.{Cache, page_may_go};
ghost use Rattle.model.specs.Row.{those};
ghost use Rattle.model.specs.Spill.{needs_spill};
ghost use Rattle.memory.specs.Memory.{memory_of};
ghost use Rattle.memory.specs.Holds.{Holds};
ghost use Rattle.spilling.specs.Parts.{PartsOfSound};

use page::{PageCache, Slot};
use pool::load;

// Whether dirty pages should be written out, since too many pages are held and too few of them may go.
pub fn needs_spill(slots: &[u64], by_key: &[u32], head: PageCache) -> bool
    requires { PartsOfSound slots.now by_key.now head.held }
    ensures { (by_handle marks : List ℕ) (c : Cache) → Holds (memory_of slots.now by_key.now by_handle marks) head c → result ≡ needs_spill c }
{
    let threshold = head.spill_threshold();
    if (head.spill == 0) | (head.held < threshold) {
        return false;
    }
    let needed = head.held - threshold;
    // The estimate may have any value of 32 bits, so the sum takes more than 32.
    let room = head.estimate as u64 + empty_slots(head) as u64;
    if needed as u64 <= room {
        return false;
    }
    count_evictable_pages(slots, by_key, head.held) < needed
}

// How many pages can be inserted before one has to be evicted.
fn empty_slots(head: PageCache) -> u32
    ensures { result ≡ head.capacity - head.held }
{
    head.capacity.saturating_sub(head.held)
}

// How many pages may go, counted one by one.
pub fn count_evictable_pages(slots: &[u64], by_key: &[u32], held: u32) -> u32
    requires { PartsOfSound slots.now by_key.now held }
    ensures { (by_handle marks : List ℕ) (head : PageCache) (c : Cache) → Holds (memory_of slots.now by_key.now by_handle marks) head c → head.held ≡ held → result ≡ length (those page_may_go c.row) }
{
    let mut count: u32 = 0;
    for s in &by_key[..held as usize] {
        let e = load(slots, Slot(*s));
        if PageCache::evictable(e.key, e.page) {
            count += 1;
        }
    }
    count
}
