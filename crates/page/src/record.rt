// A page's record: what the caller says of a page. The cache stores it and looks at it, and changes nothing of it but the
// holders: whoever looks a page up holds it until it is released.
//
// Tests are joined by `&` and `|`, not by `&&` and `||`: each is a load and a mask, and a sweep asks them of every page
// that it passes, where one test without branches costs less than several with.
ghost use Rattle.std.specs.Prelude.{◌≡◌};
ghost use Rattle.page.specs.Record.{flagged, loaded, locked, dirty, spilled, tagged, pinned, held, stale, clean_or_spilled, deletable, one_holder_more, one_holder_less, with_holders};

#[derive(Clone, Copy, PartialEq, Eq, Default)]
pub struct PageRecord {
    // A sum of the flags below, 0 to 31 in a good record. A number, since a record may come with any, and BadRecord answers it.
    pub flags: u8,
    // How often the page is pinned; a page with any pin is pinned.
    pub pins: u16,
    // Who else holds the page, the cache not counted.
    pub holders: u16,
    // Overflow cells: cells that don't fit on the page yet.
    pub cells: u8,
    // The write-ahead log's frame that the page was read from, if the page has a WAL tag. No Option: it is kept and listed with or without.
    pub frame: u64,
}

// What keeps a page from being deleted.
#[derive(Clone, Copy, PartialEq, Eq)]
pub enum Hindrance {
    Locked,
    Dirty,
    Pinned,
}

impl PageRecord {
    pub const LOADED: u8 = 1;

    pub const LOCKED: u8 = 2;

    pub const DIRTY: u8 = 4;

    pub const SPILLED: u8 = 8;

    pub const WAL_TAG: u8 = 16;
    // All flags together: a record with any other bit set is bad.
    pub const ALL_FLAGS: u8 = 31;

    fn has(self, flag: u8) -> bool
        ensures { result ≡ flagged flag self }
    {
        self.flags & flag != 0
    }

    pub fn is_loaded(self) -> bool
        ensures { result ≡ loaded self }
    {
        self.has(Self::LOADED)
    }

    pub fn is_locked(self) -> bool
        ensures { result ≡ locked self }
    {
        self.has(Self::LOCKED)
    }

    pub fn is_dirty(self) -> bool
        ensures { result ≡ dirty self }
    {
        self.has(Self::DIRTY)
    }

    pub fn is_spilled(self) -> bool
        ensures { result ≡ spilled self }
    {
        self.has(Self::SPILLED)
    }

    pub fn has_wal_tag(self) -> bool
        ensures { result ≡ tagged self }
    {
        self.has(Self::WAL_TAG)
    }

    pub fn is_pinned(self) -> bool
        ensures { result ≡ pinned self }
    {
        self.pins != 0
    }

    pub fn is_held(self) -> bool
        ensures { result ≡ held self }
    {
        self.holders != 0
    }

    // How many hold the page if one more does, unless a record can't count so many.
    pub fn one_holder_more(self) -> Option<u16>
        ensures { result ≡ one_holder_more self }
    {
        self.holders.checked_add(1)
    }

    // How many still hold the page if one lets go, unless nobody holds it.
    pub fn one_holder_less(self) -> Option<u16>
        ensures { result ≡ one_holder_less self }
    {
        self.holders.checked_sub(1)
    }

    // The record with another number of holders. It is made field by field, and so in registers: a copy of the record that is changed then
    // goes through memory, on every hit.
    pub fn with_holders(self, holders: u16) -> Self
        ensures { result ≡ with_holders self holders }
    {
        Self {
            flags: self.flags,
            pins: self.pins,
            holders,
            cells: self.cells,
            frame: self.frame,
        }
    }

    // Neither loaded nor locked: a read that was given up leaves a page so, and no lookup may hand it out.
    pub fn is_stale(self) -> bool
        ensures { result ≡ stale self }
    {
        !self.is_loaded() & !self.is_locked()
    }

    pub fn is_clean_or_spilled(self) -> bool
        ensures { result ≡ clean_or_spilled self }
    {
        !self.is_dirty() | self.is_spilled()
    }

    // Whether the page may be deleted or, if not, the first reason against it. Holders don't count here, and page 1 may be deleted.
    pub fn deletable(self) -> Result<(), Hindrance>
        ensures { result ≡ deletable self }
    {
        if self.is_locked() {
            return Err(Hindrance::Locked);
        }
        if self.is_dirty() {
            return Err(Hindrance::Dirty);
        }
        if self.is_pinned() {
            return Err(Hindrance::Pinned);
        }
        Ok(())
    }
}
