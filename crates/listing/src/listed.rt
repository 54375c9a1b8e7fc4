// A page of the listing, and how it is fetched.
ghost use Rattle.std.specs.Prelude.{◌≡◌, ◌<◌, length};
ghost use Rattle.pool.specs.Slots.{entries};
ghost use Rattle.listing.specs.Listing.{ring_page_at};

use page::{PageCacheKey, PageHandle, PageRecord, Slot};
use pool::load;

#[derive(Clone, Copy)]
pub struct ListedPage {
    pub key: PageCacheKey,
    pub handle: PageHandle,
    pub page: PageRecord,
    // The use count, 0 to 3.
    pub uses: u8,
}

// A page and its place in the ring.
#[derive(Clone, Copy)]
pub struct RingPage {
    pub page: ListedPage,
    // The slot that a sweep comes to after it.
    pub next: Slot,
}

// What stands at slot s.
pub fn page_at(slots: &[u64], s: Slot) -> RingPage
    requires { s.0 < length (entries slots.now) }
    ensures { result ≡ ring_page_at (entries slots.now) s.0 }
{
    let e = load(slots, s);
    RingPage {
        page: ListedPage {
            key: e.key,
            handle: e.handle,
            page: e.page,
            uses: e.uses,
        },
        next: e.next,
    }
}
