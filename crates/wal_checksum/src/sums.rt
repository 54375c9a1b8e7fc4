// The two sums.
ghost use Rattle.std.specs.Prelude.{◌≡◌, ◌+◌, ◌*◌, ◌≤◌, length};
ghost use Rattle.wal_checksum.specs.Checksum.{same_sums, sums_at, paired, checksum};

use crate::number::{number_at, word_at};

// The running sums. Those of a frame go on from those of the frame before.
#[derive(Clone, Copy, Debug, PartialEq, Eq)]
pub struct Sums {
    // The sum of all words but the last, each with a Fibonacci number as its weight.
    pub s0: u32,
    // The same of all words.
    pub s1: u32,
}

// Whether two are the same.
pub fn same(a: Sums, b: Sums) -> bool
    ensures { result ≡ same_sums a b }
{
    a == b
}

// The sums that are stored at a place.
pub fn sums_at(bytes: &[u8], at: usize) -> Sums
    requires { at + 8 ≤ length bytes.now }
    ensures { result ≡ sums_at bytes.now at }
{
    Sums {
        s0: number_at(bytes, at),
        s1: number_at(bytes, at + 4),
    }
}

// The sums after `pairs` pairs of words, from place `at` on, that follow what `sums` has summed. The place is one of the whole log, as in
// the definitions: of a part that is lent a caller would have to show that it has the log's words.
pub fn checksum(bytes: &[u8], at: usize, pairs: usize, big: bool, sums: Sums) -> Sums
    requires { at + 8 * pairs ≤ length bytes.now }
    ensures { result ≡ checksum big bytes.now at pairs sums }
{
    let mut s = sums;
    for i in 0..pairs {
        let next = at + 8 * i;
        s = add_pair(word_at(bytes, next, big), word_at(bytes, next + 4, big), s);
    }
    s
}

// One turn of the document's loop: s0 += x + s1, then s1 += y + s0. Every addition wraps at 2^32.
fn add_pair(x: u32, y: u32, s: Sums) -> Sums
    ensures { result ≡ paired x y s }
{
    let s0 = s.s0.wrapping_add(x.wrapping_add(s.s1));
    let s1 = s.s1.wrapping_add(y.wrapping_add(s0));
    Sums { s0, s1 }
}
