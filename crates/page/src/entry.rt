// The entry of a held page.
ghost use Rattle.std.specs.Prelude.{◌≡◌};
ghost use Rattle.page.specs.Entry.{new_entry, with_uses, raised, lowered};

use crate::cache::PageCache;
use crate::names::{PageCacheKey, PageHandle, Slot};
use crate::record::PageRecord;

#[derive(Clone, Copy)]
pub struct PageCacheEntry {
    pub key: PageCacheKey,
    pub handle: PageHandle,
    pub page: PageRecord,
    // The use count, 0 to 3: raised at each touch, lowered by sweeps. The Rust calls it `ref_bit`.
    pub uses: u8,
    // Always 0: a byte that a slot has to spare.
    pub spare: u8,
    // The entries that a sweep meets after this one and before it.
    pub next: Slot,
    pub prev: Slot,
}

impl PageCacheEntry {
    // A page that was never touched. Whoever puts it into a ring sets its links.
    pub fn new(key: PageCacheKey, handle: PageHandle, page: PageRecord) -> Self
        ensures { result ≡ new_entry key handle page }
    {
        Self {
            key,
            handle,
            page,
            uses: 0,
            spare: 0,
            next: Slot(0),
            prev: Slot(0),
        }
    }

    // The entry after a touch.
    pub fn bump_ref(mut self) -> Self
        ensures { result ≡ with_uses self (raised self.uses) }
    {
        self.uses = self.uses.saturating_add(1).min(PageCache::REF_MAX);
        self
    }

    // The entry after a sweep passed it, if its page may go.
    pub fn decrement_ref(mut self) -> Self
        ensures { result ≡ with_uses self (lowered self.uses) }
    {
        self.uses = self.uses.saturating_sub(1);
        self
    }
}
