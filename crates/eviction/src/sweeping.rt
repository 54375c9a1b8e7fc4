// A sweep: looks at one page after another, until one may go and has no use left.
ghost use Rattle.std.specs.Prelude.{◌<◌, length};
ghost use Rattle.pool.specs.Slots.{entries};
ghost use Rattle.eviction.specs.Sweep.{LookedAt, Sweepable, SweptAs};

use page::{PageCache, Slot};

// How often a sweep goes round. A page that may go has lost its last use after three rounds, and the fourth takes it.
const ROUNDS: u64 = PageCache::REF_MAX as u64 + 1;

// What a sweep says. The slot stands beside `found`, and not in an Option, since it counts in either case: the contract says where the
// sweep ended also if nothing was found (`SweptAs`).
#[derive(Clone, Copy)]
pub struct Swept {
    // Whether there is a page to take.
    pub found: bool,
    // Its slot. If there is none, the hand's: the sweep has come round to where it began.
    pub at: Slot,
    // How many pages were passed: fewer than 4n of n held if a page was found, and else 4n.
    pub passed: u64,
}

// Looks at the page in slot s. If it is passed, the answer is the slot to go on at; if it is taken, there is none. The slot is written
// only if the page loses a use.
fn look_at(slots: &mut [u64], s: Slot) -> Option<Slot>
    requires { s.0 < length (entries slots.old) }
    ensures { LookedAt (entries slots.old) s.0 (entries slots.new) result }
{
    let e = pool::load(slots, s);
    let next = e.next;
    if !PageCache::evictable(e.key, e.page) {
        return Some(next);
    }
    if e.uses == 0 {
        return None;
    }
    pool::store(slots, s, e.decrement_ref());
    Some(next)
}

// Sweeps a ring of `held` pages from the hand on. The page that it finds is not removed: that is the caller's to do.
pub fn sweep(slots: &mut [u64], hand: Slot, held: u32) -> Swept
    requires { Sweepable (entries slots.old) hand.0 }
    ensures { SweptAs (entries slots.old) hand.0 held (entries slots.new) result }
{
    let limit = ROUNDS * held as u64;
    let mut at = hand;
    for passed in 0..limit {
        let Some(next) = look_at(slots, at) else {
            return Swept {
                found: true,
                at,
                passed,
            };
        };
        at = next;
    }
    Swept {
        found: false,
        at,
        passed: limit,
    }
}
