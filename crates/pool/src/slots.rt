// Slots: four words each, and the entry that they hold. Only `load`, `store` and `is_blank` know where a field stands.
//
// That a slot lies in the pool is a clause of each function here and above, and no type: a type of slot and slots would keep the slots
// borrowed from one load to the next, and the links of a page lead from slot to slot.
ghost use Rattle.std.specs.Prelude.{◌≡◌, ◌<◌, length, get_or, set};
ghost use Rattle.pool.specs.Slots.{entries, blank};
ghost use Rattle.pool.specs.Decides.{Decides};

use page::{PageCacheEntry, PageCacheKey, PageHandle, PageRecord, Slot};

// The place value of a field's lowest bit in its word. The fields below it add up to less.
const HANDLE_UNIT: u64 = 1 << 32;

const PREV_UNIT: u64 = 1 << 32;

const USES_UNIT: u64 = 1 << 8;

const CELLS_UNIT: u64 = 1 << 16;

const SPARE_UNIT: u64 = 1 << 24;

const PINS_UNIT: u64 = 1 << 32;

const HOLDERS_UNIT: u64 = 1 << 48;

pub fn load(slots: &[u64], s: Slot) -> PageCacheEntry
    requires { s.0 < length (entries slots.now) }
    ensures { result ≡ get_or (entries slots.now) s.0 blank }
{
    let at = s.0 as usize * 4;
    let names = slots[at];
    let links = slots[at + 1];
    let counts = slots[at + 2];
    let frame = slots[at + 3];
    let page = PageRecord {
        flags: (counts % 256) as u8,
        pins: (counts / PINS_UNIT % 65536) as u16,
        holders: (counts / HOLDERS_UNIT) as u16,
        cells: (counts / CELLS_UNIT % 256) as u8,
        frame,
    };
    PageCacheEntry {
        key: PageCacheKey((names % HANDLE_UNIT) as u32),
        handle: PageHandle((names / HANDLE_UNIT) as u32),
        page,
        uses: (counts / USES_UNIT % 256) as u8,
        spare: (counts / SPARE_UNIT % 256) as u8,
        next: Slot((links % PREV_UNIT) as u32),
        prev: Slot((links / PREV_UNIT) as u32),
    }
}

pub fn store(slots: &mut [u64], s: Slot, e: PageCacheEntry)
    requires { s.0 < length (entries slots.old) }
    ensures { entries slots.new ≡ set (entries slots.old) s.0 e }
{
    let at = s.0 as usize * 4;
    let page = e.page;
    slots[at] = e.key.0 as u64 + e.handle.0 as u64 * HANDLE_UNIT;
    slots[at + 1] = e.next.0 as u64 + e.prev.0 as u64 * PREV_UNIT;
    slots[at + 2] = page.flags as u64
        + e.uses as u64 * USES_UNIT
        + page.cells as u64 * CELLS_UNIT
        + e.spare as u64 * SPARE_UNIT
        + page.pins as u64 * PINS_UNIT
        + page.holders as u64 * HOLDERS_UNIT;
    slots[at + 3] = page.frame;
}

// What a free slot holds.
pub fn blank_entry() -> PageCacheEntry
    ensures { result ≡ blank }
{
    PageCacheEntry::new(PageCacheKey(0), PageHandle(0), PageRecord::default())
}

// Whether the slot is all zero. A held slot may be so too: only the marks say which slots are free.
pub fn is_blank(slots: &[u64], s: Slot) -> bool
    requires { s.0 < length (entries slots.now) }
    ensures { Decides result (get_or (entries slots.now) s.0 blank ≡ blank) }
{
    let at = s.0 as usize * 4;
    (slots[at] == 0) & (slots[at + 1] == 0) & (slots[at + 2] == 0) & (slots[at + 3] == 0)
}
