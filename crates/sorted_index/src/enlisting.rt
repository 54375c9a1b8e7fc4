// A slot is added to an index or removed from it. The caller writes or clears the slot's entry only afterwards, so that the index
// is searched by the names that it was sorted by.
ghost use Rattle.pool.specs.Slots.{entries};
ghost use Rattle.sorted_index.specs.Names.{names};
ghost use Rattle.sorted_index.specs.Index.{Index, CanInsert, CanRemove};
ghost use Rattle.sorted_index.specs.Listed.{HasRoom, Enlisted, EnlistedAt, Unlisted, UnlistedAt};

use crate::search::{By, find, gap};
use crate::shift::{insert_at, remove_at};
use page::Slot;

// Puts slot s, which is to have the name x, into an index of n slots, none of which has that name.
pub fn enlist(order: &mut [u32], slots: &[u64], by: By, n: usize, x: u32, s: Slot)
    requires { HasRoom (names by (entries slots.now)) order.old n }
    ensures { Enlisted (names by (entries slots.now)) order.old n x s.0 order.new }
{
    let at = gap(order, slots, by, n, x);
    enlist_at(order, n, at, s);
}

// The same if a search has found the gap, and the index has not changed since. This and `unlist_at` speak of slots and names, where
// shift.rt speaks of numbers in a slice.
pub fn enlist_at(order: &mut [u32], n: usize, at: usize, s: Slot)
    requires { CanInsert order.old n at }
    ensures { EnlistedAt order.old n at s.0 order.new }
{
    insert_at(order, n, at, s);
}

// Takes the slot that has the name x out of an index of n slots.
pub fn unlist(order: &mut [u32], slots: &[u64], by: By, n: usize, x: u32)
    requires { Index (names by (entries slots.now)) order.old n }
    ensures { Unlisted (names by (entries slots.now)) order.old n x order.new }
{
    let Ok(at) = find(order, slots, by, n, x) else {
        return;
    };
    unlist_at(order, n, at);
}

// The same if the slot's place is known.
pub fn unlist_at(order: &mut [u32], n: usize, at: usize)
    requires { CanRemove order.old n at }
    ensures { UnlistedAt order.old n at order.new }
{
    remove_at(order, n, at);
}
