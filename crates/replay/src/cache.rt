// The cache that the records are applied to, and the memory that is lent to it.
use answer::Answered;
use listing::ListingError;
use memory::{LentMemory, LentView};
use page::{PageCache, PageCacheKey, Slot};

// The slots of the pool.
pub const SLOTS: usize = 256;

// Four words to a slot.
const WORDS: usize = 1024;

// One bit to a slot.
const MARKS: usize = 4;

#[derive(Drop)]
pub struct Cache {
    slots: [u64; WORDS],
    by_key: [u32; SLOTS],
    by_handle: [u32; SLOTS],
    marks: [u64; MARKS],
    // What a call listed stands in the first places.
    pub list: [u32; SLOTS],
    pub head: PageCache,
}

impl Cache {
    // Before the first creation. All is zero, which is not sound, so that calls answer 1.
    pub fn new() -> Cache {
        let head = PageCache {
            capacity: 0,
            held: 0,
            hand: Slot(0),
            spill: 0,
            estimate: 0,
        };
        Cache {
            head,
            slots: [0; WORDS],
            by_key: [0; SLOTS],
            by_handle: [0; SLOTS],
            marks: [0; MARKS],
            list: [0; SLOTS],
        }
    }

    pub fn apply(&mut self, record: &[u8]) -> Answered {
        let mut memory = LentMemory {
            slots: &mut self.slots,
            by_key: &mut self.by_key,
            by_handle: &mut self.by_handle,
            marks: &mut self.marks,
        };
        let answered = apply::apply(record, &mut memory, &mut self.list, self.head);
        self.head = answered.head;
        answered
    }

    // The key of the hand's page, if a page is held. The hand of a cache is always a slot; the test here saves proving it.
    pub fn hand_key(&self) -> Option<PageCacheKey> {
        let hand = self.head.hand;
        if self.head.held == 0 {
            None
        } else if hand.0 >= 256 {
            Some(PageCacheKey(0))
        } else {
            Some(pool::load(&self.slots, hand).key)
        }
    }

    // The held pages in sweep order, each as eight numbers: this form of the listing is the one that is compared with the Rust.
    pub fn list_pages(&self, pages: &mut [[u64; 8]; SLOTS]) -> Result<u32, ListingError> {
        let memory = LentView {
            slots: &self.slots,
            by_key: &self.by_key,
            by_handle: &self.by_handle,
            marks: &self.marks,
        };
        listing::list_pages(memory, self.head, pages.as_flattened_mut())
    }
}
