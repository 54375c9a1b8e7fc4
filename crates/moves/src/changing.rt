// A page changes in its place: its slot, its key and its neighbours stay.
ghost use Rattle.std.specs.Prelude.{◌<◌, length};
ghost use Rattle.pool.specs.Slots.{entries};
ghost use Rattle.sorted_index.specs.Names.{names};
ghost use Rattle.sorted_index.specs.declared.search.By.TheVariants.{Handle};
ghost use Rattle.moves.specs.Moves.{Touches, Rewritable, Rewrites, Replaceable, Replaces};
ghost use Rattle.moves.specs.Relist.{CanRelist, Relisted};

use crate::estimate::count_over;
use page::{PageCache, PageHandle, PageRecord, Slot};
use sorted_index::By;

// One touch: the use count rises by 1, at most to 3.
pub fn touch_at(slots: &mut [u64], s: Slot)
    requires { s.0 < length (entries slots.old) }
    ensures { Touches slots.old s.0 slots.new }
{
    let e = pool::load(slots, s);
    pool::store(slots, s, e.bump_ref());
}

// Another record for the page. Its handle and its use count stay.
pub fn rewrite_at(slots: &mut [u64], s: Slot, page: PageRecord)
    requires { Rewritable slots.old s.0 page }
    ensures { Rewrites slots.old s.0 page slots.new }
{
    let mut e = pool::load(slots, s);
    e.page = page;
    pool::store(slots, s, e);
}

// Another handle and another record for the page. Its use count stays, and the estimate follows the change. The answer is
// the head after it.
pub fn replace_at(
    slots: &mut [u64],
    by_handle: &mut [u32],
    head: PageCache,
    s: Slot,
    handle: PageHandle,
    page: PageRecord,
) -> PageCache
    requires { Replaceable slots.old by_handle.old head s.0 handle.0 page }
    ensures { Replaces slots.old by_handle.old head s.0 handle.0 page slots.new by_handle.new result }
{
    let old = pool::load(slots, s);
    relist(by_handle, slots, head.held as usize, s, old.handle, handle);
    let mut new = old;
    new.handle = handle;
    new.page = page;
    pool::store(slots, s, new);
    let mut after = head;
    after.estimate = count_over(head.estimate, old.key, old.page, page);
    after
}

// Moves slot s, in an index of n slots, to the place of its new handle. If the handle is the old one, nothing is done.
fn relist(by_handle: &mut [u32], slots: &[u64], n: usize, s: Slot, old: PageHandle, new: PageHandle)
    requires { CanRelist (names Handle (entries slots.now)) by_handle.old n s.0 old.0 new.0 }
    ensures { Relisted (names Handle (entries slots.now)) by_handle.old n s.0 old.0 new.0 by_handle.new }
{
    if old == new {
        return;
    }
    sorted_index::unlist(by_handle, slots, By::Handle, n, old.0);
    sorted_index::enlist(by_handle, slots, By::Handle, n - 1, new.0, s);
}
