// The header of a log.
ghost use Rattle.std.specs.Prelude.{◌≡◌};
ghost use Rattle.wal_header.specs.Header.{is_magic, opened};

use page_size::is_page_size;
use std::error::Error;
use std::fmt;
use wal_checksum::{Sums, checksum, number_at, same, sums_at};

#[derive(Clone, Copy, Debug, PartialEq, Eq)]
pub struct Header {
    // Whether the words that are summed are big-endian.
    pub big: bool,
    // In bytes: a power of two from 512 to 65,536, if `open` gave the header.
    pub page_size: u32,
    // The checkpoint sequence number.
    pub checkpoint: u32,
    // Each frame repeats both salts.
    pub salt1: u32,
    pub salt2: u32,
    // The header's sums, from which those of the first frame go on.
    pub sums: Sums,
}

// What can be wrong with a header, in the order in which it is looked at.
#[derive(Clone, Copy, Debug, PartialEq, Eq)]
pub enum Fault {
    // Fewer than 32 bytes.
    Length,
    Magic,
    Version,
    PageSize,
    Checksum,
}

// The fault's name.
impl fmt::Display for Fault {
    ghost use Rattle.std.specs.Prelude.{Some};
    ghost use Rattle.wal_header.specs.Header.{name};

    ghost output = { λ f. Some (name f) };

    fn fmt<W: fmt::Write>(&self, f: &mut fmt::Formatter<W>) -> fmt::Result {
        f.write_str(match self {
            Fault::Length => "length",
            Fault::Magic => "magic",
            Fault::Version => "version",
            Fault::PageSize => "page size",
            Fault::Checksum => "checksum",
        })
    }
}

impl Error for Fault {}

// The bytes of a log's header. The first frame follows.
pub const HEADER_LENGTH: usize = 32;

// The low bit chooses the order of the words that are summed.
const MAGIC_LITTLE: u32 = 0x377f0682;

const MAGIC_BIG: u32 = 0x377f0683;

const VERSION: u32 = 3007000;

// The header that a log begins with, or its first fault. Only the first 32 bytes are looked at.
#[tactic(auto, unfolding(crate::specs::Header::opened, crate::specs::Header::header_of, crate::specs::Header::header_sums))]
pub fn open(log: &[u8]) -> Result<Header, Fault>
    ensures { result ≡ opened log.now }
{
    if log.len() < HEADER_LENGTH {
        return Err(Fault::Length);
    }
    let magic = number_at(log, 0);
    if !is_magic(magic) {
        return Err(Fault::Magic);
    }
    if number_at(log, 4) != VERSION {
        return Err(Fault::Version);
    }
    let page_size = number_at(log, 8);
    if !is_page_size(page_size) {
        return Err(Fault::PageSize);
    }
    let big = magic == MAGIC_BIG;
    let sums = checksum(log, 0, 3, big, Sums { s0: 0, s1: 0 });
    if !same(sums, sums_at(log, 24)) {
        return Err(Fault::Checksum);
    }
    Ok(Header {
        big,
        page_size,
        checkpoint: number_at(log, 12),
        salt1: number_at(log, 16),
        salt2: number_at(log, 20),
        sums,
    })
}

fn is_magic(n: u32) -> bool
    ensures { result ≡ is_magic n }
{
    n == MAGIC_LITTLE || n == MAGIC_BIG
}
