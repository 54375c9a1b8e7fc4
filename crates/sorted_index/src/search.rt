// The search for a name. It reads one entry at each turn, and takes as many turns as n has binary digits.
ghost use Rattle.std.specs.Prelude.{◌≡◌, ◌<◌, length, get_or};
ghost use Rattle.pool.specs.Slots.{entries};
ghost use Rattle.sorted_index.specs.Names.{names};
ghost use Rattle.sorted_index.specs.Index.{Index, FoundSpot};
ghost use Rattle.sorted_index.specs.Listed.{GapFor};

use page::Slot;

// The name that an index goes by. A value and no closure, since contracts speak of the column of names that it picks (`names`).
#[derive(Clone, Copy)]
pub enum By {
    Key,
    Handle,
}

pub fn name(slots: &[u64], s: Slot, by: By) -> u32
    requires { s.0 < length (entries slots.now) }
    ensures { result ≡ get_or (names by (entries slots.now)) s.0 0 }
{
    let e = pool::load(slots, s);
    match by {
        By::Key => e.key.0,
        By::Handle => e.handle.0,
    }
}

// Where the name x stands in an index of n slots. If no slot has it, where it would go: before that place stand the lower names, from
// there on the higher.
//
// By hand: the library's `binary_search_by` may call its closure with any number, and a name can be read of a slot of the pool alone, so that
// the closure would have to test each slot again. The index is a slice with its n beside it, since the zeros behind it count too (`Index`).
pub fn find(order: &[u32], slots: &[u64], by: By, n: usize, x: u32) -> Result<usize, usize>
    requires { Index (names by (entries slots.now)) order.now n }
    ensures { FoundSpot (names by (entries slots.now)) order.now n x result }
{
    let mut lo = 0;
    let mut hi = n;
    while lo < hi {
        let mid = lo + ((hi - lo) >> 1);
        let s = order[mid];
        let y = name(slots, Slot(s), by);
        if y < x {
            lo = mid + 1;
        } else {
            hi = mid;
        }
    }
    if lo < n {
        let s = order[lo];
        let y = name(slots, Slot(s), by);
        if y == x {
            return Ok(lo);
        }
    }
    Err(lo)
}

// The gap that a name goes into which no slot of the index has.
pub fn gap(order: &[u32], slots: &[u64], by: By, n: usize, x: u32) -> usize
    requires { Index (names by (entries slots.now)) order.now n }
    ensures { GapFor (names by (entries slots.now)) order.now n x result }
{
    match find(order, slots, by, n, x) {
        Ok(at) => at,
        Err(at) => at,
    }
}
