// What a page cache holds, one value at a time: the names of things, a page's record, the entry of a held page, and the
// head of a cache. Everything here goes by value; the memory in which a pool keeps it is the business of the crates above.
//
//     names.rt    PageCacheKey, PageHandle, Slot: three kinds of number that can't be mixed up
//     record.rt   PageRecord: what the caller says of a page, and the questions asked of it
//     entry.rt    PageCacheEntry: a held page, its use count and its two neighbours in the ring
//     cache.rt    PageCache: the head of a cache, the limits that belong to it, and its rules for single pages
//
// Callers may rely on each function's `ensures`, which cites the definitions in specs/. No function asks anything of
// its arguments.
#![tactic(auto)]

mod cache;
mod entry;
mod names;
mod record;

pub use cache::PageCache;
pub use entry::PageCacheEntry;
pub use names::{PageCacheKey, PageHandle, Slot};
pub use record::{Hindrance, PageRecord};
