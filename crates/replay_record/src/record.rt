// A record, and how it is read.
ghost use Rattle.std.specs.Prelude.{◌≡◌, length};
ghost use Rattle.replay_record.specs.Fields.{bad, fields, decoded};

use crate::number::number_at;
use page::{PageCacheKey, PageHandle, PageRecord};

#[derive(Clone, Copy)]
pub struct Record {
    // Which call it is: 0 create to 17 release. No call has a number above 17. A number and no enum, since a record with another one is a
    // record too: `decoded` says so, and crate dispatch answers it.
    pub operation: u8,
    // Touch (peek), dirty too (clear), on (spill switch).
    pub option: bool,
    pub key: PageCacheKey,
    pub handle: PageHandle,
    pub page: PageRecord,
    // Capacity (create, resize), limit (truncate, frame removal), most to select (spill). The page's frame is the same number.
    pub number: u64,
}

const LENGTH: usize = 32;

// What the bytes say, or None if they are no record.
pub fn decode(bytes: &[u8]) -> Option<Record>
    ensures { result ≡ decoded bytes.now }
{
    if bytes.len() != LENGTH || is_bad(bytes) {
        return None;
    }
    Some(read(bytes))
}

// Whether 32 bytes are no record: an option above 1, or a tail that is not zero.
fn is_bad(bytes: &[u8]) -> bool
    requires { length bytes.now ≡ 32 }
    ensures { result ≡ bad bytes.now }
{
    let tail = number_at(bytes, 24, 8);
    (bytes[15] > 1) | (tail != 0)
}

// The fields of 32 bytes.
fn read(bytes: &[u8]) -> Record
    requires { length bytes.now ≡ 32 }
    ensures { result ≡ fields bytes.now }
{
    let number = number_at(bytes, 16, 8);
    let page = PageRecord {
        flags: bytes[1],
        pins: number_at(bytes, 2, 2) as u16,
        holders: number_at(bytes, 12, 2) as u16,
        cells: bytes[14],
        frame: number,
    };
    Record {
        operation: bytes[0],
        option: bytes[15] == 1,
        key: PageCacheKey(number_at(bytes, 4, 4) as u32),
        handle: PageHandle(number_at(bytes, 8, 4) as u32),
        page,
        number,
    }
}
