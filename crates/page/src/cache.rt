// The head of a cache: the numbers that stand beside the pool's slots. It goes in by value and comes back.
ghost use Rattle.std.specs.Prelude.{◌≡◌};
ghost use Rattle.page.specs.Cache.{created, threshold, page_one, may_go, counts, spillable};

use crate::names::{PageCacheKey, Slot};
use crate::record::PageRecord;

#[derive(Clone, Copy)]
pub struct PageCache {
    // The most pages to hold. Forced insertion may exceed it.
    pub capacity: u32,
    // How many pages are held.
    pub held: u32,
    // Where the next sweep begins: a held slot, or 0 if nothing is held.
    pub hand: Slot,
    // 1 if spilling is on, 0 if it is off. A number and no bool: a head may come from anywhere, and with any other number no memory is
    // sound (`InRange` of crate soundness).
    pub spill: u8,
    // An estimate of how many pages are clean or spilled. Any value is good; it is no bound.
    pub estimate: u32,
}

impl PageCache {
    // The most slots that a pool may have.
    pub const MAX_SLOTS: u32 = 4096;
    // The highest use count.
    pub const REF_MAX: u8 = 3;
    // The share of the capacity above which a spill may be needed.
    pub const SPILL_THRESHOLD_PERCENT: u64 = 90;
    // The page that is never evicted, spilled or counted: the database header.
    pub const HEADER_PAGE: PageCacheKey = PageCacheKey(1);

    pub fn new(capacity: u32) -> Self
        ensures { result ≡ created capacity }
    {
        Self {
            capacity,
            held: 0,
            hand: Slot(0),
            spill: 1,
            estimate: 0,
        }
    }

    // A spill may be needed only if more pages than this are held.
    pub fn spill_threshold(self) -> u32
        ensures { result ≡ threshold self.capacity }
    {
        let share = self.capacity as u64 * Self::SPILL_THRESHOLD_PERCENT / 100;
        share.max(1) as u32
    }

    fn is_header(key: PageCacheKey) -> bool
        ensures { result ≡ page_one key.0 }
    {
        key == Self::HEADER_PAGE
    }

    // Whether an eviction may take the page.
    pub fn evictable(key: PageCacheKey, page: PageRecord) -> bool
        ensures { result ≡ may_go key.0 page }
    {
        page.is_clean_or_spilled()
            & !page.is_locked()
            & !page.is_pinned()
            & !page.is_held()
            & !Self::is_header(key)
    }

    // Whether the page counts in `estimate`. Locks, pins and holders come and go too fast to be followed there.
    pub fn counted_as_evictable(key: PageCacheKey, page: PageRecord) -> bool
        ensures { result ≡ counts key.0 page }
    {
        !Self::is_header(key) & page.is_clean_or_spilled()
    }

    // Whether a spill may select the page.
    pub fn spillable(key: PageCacheKey, page: PageRecord) -> bool
        ensures { result ≡ spillable key.0 page }
    {
        page.is_dirty()
            & !page.is_spilled()
            & !page.is_locked()
            & !page.is_pinned()
            & !page.is_held()
            & !Self::is_header(key)
            & (page.cells == 0)
    }
}
