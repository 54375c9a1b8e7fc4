// What an insertion is asked for: NewPage, the page with its key, its handle and its record; and InsertMode, which of 01's three forms
// the insertion has.
//
// The mode alone decides three things of rules 6 and 7, each with its definition in specs/Mode.antt and not by a closure, and the other
// files may rely on its functions for each: whether a page that is there is replaced, whether a page for which no room was made goes in all
// the same, and what is answered if not.
ghost use Rattle.std.specs.Prelude.{◌≡◌};
ghost use Rattle.insertion.specs.Mode.{replaces, goes_in, turned_away};

use answer::Answer;
use page::{PageCacheKey, PageHandle, PageRecord};

#[derive(Clone, Copy)]
pub struct NewPage {
    // The page's key.
    pub key: PageCacheKey,
    // The page's handle.
    pub handle: PageHandle,
    // The page's record.
    pub page: PageRecord,
    pub mode: InsertMode,
}

#[derive(Clone, Copy, PartialEq, Eq)]
pub enum InsertMode {
    // The page goes in only if its key is absent and there is room or room can be made.
    Plain,
    // If no room can be made, the page goes in beyond the capacity, as long as a slot is free: to refuse it would free no memory, since the
    // caller has the page already. Later insertions bring the cache back to its capacity.
    Forced,
    // The same, and a page that stands under the key is replaced. Savepoint rollback restores pages this way: each has to come back, even
    // when every page that is held is dirty.
    Upsert,
}

impl InsertMode {
    // Whether a page that stands under the key already is replaced by the new one.
    pub(crate) fn replaces(self) -> bool
        ensures { result ≡ replaces self }
    {
        self == InsertMode::Upsert
    }

    // Whether a page for which no room was made takes a free slot, if `held` of `size` slots are taken.
    pub(crate) fn goes_in(self, held: u32, size: usize) -> bool
        ensures { result ≡ goes_in self held size }
    {
        match self {
            InsertMode::Plain => false,
            InsertMode::Forced | InsertMode::Upsert => (held as usize) < size,
        }
    }

    // The answer to a page that does not go in.
    pub(crate) fn turned_away(self) -> Answer
        ensures { result ≡ turned_away self }
    {
        match self {
            InsertMode::Plain => Answer::Full,
            InsertMode::Forced | InsertMode::Upsert => Answer::NoSlot,
        }
    }
}
