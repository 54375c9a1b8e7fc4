// The header of a database.
ghost use Rattle.std.specs.Prelude.{◌≡◌, ◌≤◌, length};
ghost use Rattle.database_header.specs.Header.{page_size_of, Opens, offset};

use btree_format::{first_unlike, half_at, is_usable};
use page_size::is_page_size;
use std::fmt;

// What the header says of every page.
#[derive(Clone, Copy, Debug, PartialEq, Eq)]
pub struct Database {
    // In bytes: a power of two from 512 to 65,536, if `open` gave it.
    pub page_size: u32,
    // The number of bytes at the end of each page that are reserved; 480 or more are left.
    pub reserved: u8,
}

// What can be wrong with a header, in the order in which it is looked at.
#[derive(Clone, Copy, Debug, PartialEq, Eq)]
pub enum Fault {
    // Fewer than 100 bytes.
    Length,
    // The first byte that differs from the magic string.
    Magic(usize),
    PageSize,
    // Fewer than 480 bytes of a page remain without the reserved ones.
    UsableSize,
}

impl Fault {
    // Where in the header the field stands that is wrong.
    pub fn offset(self) -> Option<usize>
        ensures { result ≡ offset self }
    {
        match self {
            Fault::Length => None,
            Fault::Magic(at) => Some(at),
            Fault::PageSize => Some(PAGE_SIZE_AT),
            // The usable size is the page size less the reserved bytes, whose number is stored there.
            Fault::UsableSize => Some(RESERVED_AT),
        }
    }
}

// The rule's name.
impl fmt::Display for Fault {
    ghost use Rattle.std.specs.Prelude.{Some};
    ghost use Rattle.database_header.specs.Header.{name};

    ghost output = { λ f. Some (name f) };

    fn fmt<W: fmt::Write>(&self, f: &mut fmt::Formatter<W>) -> fmt::Result {
        f.write_str(match self {
            Fault::Length => "length",
            Fault::Magic(_) => "magic",
            Fault::PageSize => "page size",
            Fault::UsableSize => "usable size",
        })
    }
}

pub const HEADER_LENGTH: usize = 100;

// Where the page size and the number of reserved bytes stand.
const PAGE_SIZE_AT: usize = 16;

const RESERVED_AT: usize = 20;

// The header that a file begins with. Only its first 100 bytes are looked at.
pub fn open(bytes: &[u8]) -> Result<Database, Fault>
    ensures { Opens bytes.now result }
{
    if bytes.len() < HEADER_LENGTH {
        return Err(Fault::Length);
    }
    if let Some(at) = first_unlike(bytes) {
        return Err(Fault::Magic(at));
    }
    let page_size = page_size_of(bytes);
    if !is_page_size(page_size) {
        return Err(Fault::PageSize);
    }
    let reserved = bytes[RESERVED_AT];
    if !is_usable(page_size as usize, reserved) {
        return Err(Fault::UsableSize);
    }
    Ok(Database {
        page_size,
        reserved,
    })
}

// The page size that is stored, good or not: 65,536 doesn't fit, and is stored as 1.
#[tactic(auto, unfolding(crate::specs::Header::page_size_of))]
fn page_size_of(bytes: &[u8]) -> u32
    requires { 18 ≤ length bytes.now }
    ensures { result ≡ page_size_of bytes.now }
{
    match half_at(bytes, PAGE_SIZE_AT) {
        1 => 65536,
        stored => stored as u32,
    }
}
