// Document 01's answers, in the order of its codes. A code and a value make one answer: no two cases share a code.
//
// It is no `Result` with the refusals as its errors: 01 numbers all answers in one list, and beside a refusal too a call may have pages
// passed, handles listed and another head (a full insertion, a pending resize), so that `?` would hand up too little.
ghost use Rattle.std.specs.Prelude.{◌≡◌};
ghost use Rattle.answer.specs.Answer.{refused_as};

use page::{Hindrance, PageCacheKey};

#[derive(Clone, Copy, PartialEq, Eq)]
pub enum Answer {
    // 0. Done, with the handle that was found or replaced, the number selected, or else 0.
    Done(u32),
    // 1. The memory is not sound.
    NotSound,
    // 2. The page record has flags above 31.
    BadRecord,
    // 3. The list is shorter than held.
    ShortList,
    // 4. The key is absent.
    Absent,
    // 5, 6, 7. The page under the key is locked, dirty, pinned.
    Locked(PageCacheKey),
    Dirty(PageCacheKey),
    Pinned(PageCacheKey),
    // 8. No page may go, or the capacity is 0.
    Full,
    // 9. The key is there, with the same handle.
    KeyExists,
    // 10. More pages are held than the new capacity, and none of them may go.
    PendingEvictions,
    // 11. The key is there, with another handle.
    OtherPage,
    // 12. The handle stands under another key.
    HandleElsewhere,
    // 13. Every slot is taken.
    NoSlot,
    // 14. Nothing is held.
    Empty,
    // 15. The capacity is above the number of slots.
    TooLarge,
    // 16. The number of slots or the lent lengths are wrong.
    BadLengths,
    // 17. The replay record is bad.
    BadReplay,
    // 18. No spill is needed.
    NotNeeded,
    // 19. A spill is needed, and no page was selected.
    NoneSelected,
    // 20. A lookup would add a holder to a page that has 65,535, or a release would take one away from a page that has none.
    HolderLimit,
}

impl Answer {
    // Rule 8: what a page's record says of a deletion, with the page's key if it is against it.
    pub fn refusal(key: PageCacheKey, deletable: Result<(), Hindrance>) -> Answer
        ensures { result ≡ refused_as key deletable }
    {
        match deletable {
            Ok(()) => Answer::Done(0),
            Err(Hindrance::Locked) => Answer::Locked(key),
            Err(Hindrance::Dirty) => Answer::Dirty(key),
            Err(Hindrance::Pinned) => Answer::Pinned(key),
        }
    }
}
