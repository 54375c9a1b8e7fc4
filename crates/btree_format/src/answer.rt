// What a check finds wrong with a page.
ghost use Rattle.std.specs.Prelude.{◌≡◌};
ghost use Rattle.btree_format.specs.Rules.{offset};

use std::fmt;

// The rules, in the document's field order, each with the offset in the page of the field that breaks it. The sizes are arguments,
// so their rules have no offset.
#[derive(Clone, Copy, Debug, PartialEq, Eq)]
pub enum Fault {
    // The image has another length than the page size.
    Length,
    // The page size is no power of two from 512 to 65,536.
    PageSize,
    // Fewer than 480 bytes remain without the reserved ones.
    UsableSize,
    // On page 1: the first byte that differs from the magic string.
    Magic(usize),
    PageType(usize),
    // The first link or block size that is bad.
    Freeblocks(usize),
    CellCount(usize),
    ContentStart(usize),
    Fragments(usize),
    // The first pointer to outside the cell content area.
    CellPointer(usize),
}

impl Fault {
    // Where in the page the field stands that breaks the rule.
    pub fn offset(self) -> Option<usize>
        ensures { result ≡ offset self }
    {
        match self {
            Fault::Length | Fault::PageSize | Fault::UsableSize => None,
            Fault::Magic(at)
            | Fault::PageType(at)
            | Fault::Freeblocks(at)
            | Fault::CellCount(at)
            | Fault::ContentStart(at)
            | Fault::Fragments(at)
            | Fault::CellPointer(at) => Some(at),
        }
    }
}

// The rule's name.
impl fmt::Display for Fault {
    ghost use Rattle.std.specs.Prelude.{Some};
    ghost use Rattle.btree_format.specs.Rules.{name};

    ghost output = { λ f. Some (name f) };

    fn fmt<W: fmt::Write>(&self, f: &mut fmt::Formatter<W>) -> fmt::Result {
        f.write_str(match self {
            Fault::Length => "length",
            Fault::PageSize => "page size",
            Fault::UsableSize => "usable size",
            Fault::Magic(_) => "magic",
            Fault::PageType(_) => "page type",
            Fault::Freeblocks(_) => "freeblock chain",
            Fault::CellCount(_) => "cell count",
            Fault::ContentStart(_) => "content start",
            Fault::Fragments(_) => "fragmented bytes",
            Fault::CellPointer(_) => "cell pointer",
        })
    }
}
