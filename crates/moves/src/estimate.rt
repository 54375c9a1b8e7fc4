// The estimate of how many pages count, which stays within 0 and its largest value (rule 12).
ghost use Rattle.std.specs.Prelude.{◌≡◌};
ghost use Rattle.model.specs.Cache.{up, down};
ghost use Rattle.moves.specs.Counting.{counted_in, counted_out, counted_over};

use page::{PageCache, PageCacheKey, PageRecord};

pub fn count_up(estimate: u32) -> u32
    ensures { result ≡ up estimate }
{
    estimate.saturating_add(1)
}

pub fn count_down(estimate: u32) -> u32
    ensures { result ≡ down estimate }
{
    estimate.saturating_sub(1)
}

// The estimate after the page went. This and `count_in` are each its definition; one function for both would be told by a closure which
// way to count.
pub fn count_out(estimate: u32, key: PageCacheKey, page: PageRecord) -> u32
    ensures { result ≡ counted_out key.0 page estimate }
{
    if PageCache::counted_as_evictable(key, page) {
        return count_down(estimate);
    }
    estimate
}

// The estimate after the page came.
pub fn count_in(estimate: u32, key: PageCacheKey, page: PageRecord) -> u32
    ensures { result ≡ counted_in key.0 page estimate }
{
    if PageCache::counted_as_evictable(key, page) {
        return count_up(estimate);
    }
    estimate
}

// The estimate after the page's record became another one.
pub fn count_over(estimate: u32, key: PageCacheKey, old: PageRecord, new: PageRecord) -> u32
    ensures { result ≡ counted_over key.0 old new estimate }
{
    let counted = PageCache::counted_as_evictable(key, old);
    let counts = PageCache::counted_as_evictable(key, new);
    match (counted, counts) {
        (true, false) => count_down(estimate),
        (false, true) => count_up(estimate),
        _ => estimate,
    }
}
