// The three kinds of number that name things. Each is a type of its own, so that none stands where another is meant.
// 0 is a good key, a good handle and a good slot: it is never a sign that something is missing.

// A page's key, which is also its id.
#[derive(Clone, Copy, PartialEq, Eq)]
pub struct PageCacheKey(pub u32);

// The caller's name for a page. Equal handles mean the same page.
#[derive(Clone, Copy, PartialEq, Eq)]
pub struct PageHandle(pub u32);

// A place in a pool.
#[derive(Clone, Copy, PartialEq, Eq)]
pub struct Slot(pub u32);
