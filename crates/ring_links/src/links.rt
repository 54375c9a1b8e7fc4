// The ring's links, in the slots' entries. A ring is known by its row: its slots in the order of a sweep.
ghost use Rattle.std.specs.Prelude.{◌≡◌, ◌<◌, length};
ghost use Rattle.pool.specs.Slots.{entries};
ghost use Rattle.ring_links.specs.Links.{next_at, set_next, set_prev, linked_first, linked_after, Linkable, Unlinkable, Unlinked};

use page::{PageCacheEntry, Slot};
use pool::{blank_entry, load, store};

// The slot after slot s.
pub fn next(slots: &[u64], s: Slot) -> Slot
    requires { s.0 < length (entries slots.now) }
    ensures { result.0 ≡ next_at (entries slots.now) s.0 }
{
    load(slots, s).next
}

// This and `set_prev` are each its definition in specs/Links.antt. One function for both would be told at each call, by a closure, which
// link to set.
fn set_next(slots: &mut [u64], s: Slot, next: Slot)
    requires { s.0 < length (entries slots.old) }
    ensures { entries slots.new ≡ set_next (entries slots.old) s.0 next.0 }
{
    let mut e = load(slots, s);
    e.next = next;
    store(slots, s, e);
}

fn set_prev(slots: &mut [u64], s: Slot, prev: Slot)
    requires { s.0 < length (entries slots.old) }
    ensures { entries slots.new ≡ set_prev (entries slots.old) s.0 prev.0 }
{
    let mut e = load(slots, s);
    e.prev = prev;
    store(slots, s, e);
}

// Puts e in at slot s as a ring of its own.
pub fn link_first(slots: &mut [u64], s: Slot, e: PageCacheEntry)
    requires { s.0 < length (entries slots.old) }
    ensures { entries slots.new ≡ linked_first (entries slots.old) s.0 e }
{
    let mut own = e;
    own.next = s;
    own.prev = s;
    store(slots, s, own);
}

// Puts e in at slot s, directly after the hand.
pub fn link_after(slots: &mut [u64], hand: Slot, s: Slot, e: PageCacheEntry)
    requires { Linkable (entries slots.old) hand.0 s.0 }
    ensures { entries slots.new ≡ linked_after (entries slots.old) hand.0 s.0 e }
{
    let after = next(slots, hand);
    let mut between = e;
    between.next = after;
    between.prev = hand;
    store(slots, s, between);
    set_next(slots, hand, s);
    set_prev(slots, after, s);
}

// Takes slot s out of its ring and leaves it all zero. The answer is the slot after it: s itself, if it was alone.
pub fn unlink(slots: &mut [u64], s: Slot) -> Slot
    requires { Unlinkable (entries slots.old) s.0 }
    ensures { Unlinked (entries slots.old) s.0 (entries slots.new) result }
{
    let e = load(slots, s);
    let before = e.prev;
    let after = e.next;
    set_next(slots, before, after);
    set_prev(slots, after, before);
    let empty = blank_entry();
    store(slots, s, empty);
    after
}
