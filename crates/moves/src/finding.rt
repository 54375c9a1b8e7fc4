// Where a key stands, and where a handle stands: one search of an index each. A name that isn't found has a gap, the place that it would
// go to, and whoever places the page needs no search of its own as long as no page has come or gone since.
ghost use Rattle.pool.specs.Slots.{entries};
ghost use Rattle.sorted_index.specs.Names.{names};
ghost use Rattle.sorted_index.specs.Index.{Index};
ghost use Rattle.sorted_index.specs.declared.search.By.TheVariants.{Key, Handle};
ghost use Rattle.memory.specs.Memory.{memory_seen};
ghost use Rattle.moves.specs.Moves.{Seats, SeatsHandle, Unseated, GapsOf};

use memory::LentView;
use page::{PageCache, PageCacheKey, PageHandle, Slot};
use sorted_index::By;

// Where a key stands: the slot of its page. If it is absent, its gap. It is lent two parts and no view, as is the search for a handle: some
// of those who search have no other part.
pub fn seat_of(by_key: &[u32], slots: &[u64], held: u32, key: PageCacheKey) -> Result<Slot, usize>
    requires { Index (names Key (entries slots.now)) by_key.now held }
    ensures { Seats by_key.now slots.now held key.0 result }
{
    let at = sorted_index::find(by_key, slots, By::Key, held as usize, key.0)?;
    Ok(Slot(by_key[at]))
}

// Where a handle stands, seen from a key: under another key; under this one, with the slot of its page; or nowhere, and it has a gap.
#[derive(Clone, Copy)]
pub enum HandleSeat {
    Elsewhere,
    UnderKey(Slot),
    Nowhere(usize),
}

pub fn seat_of_handle(
    by_handle: &[u32],
    slots: &[u64],
    held: u32,
    key: PageCacheKey,
    handle: PageHandle,
) -> HandleSeat
    requires { Index (names Handle (entries slots.now)) by_handle.now held }
    ensures { SeatsHandle by_handle.now slots.now held key.0 handle.0 result }
{
    match sorted_index::find(by_handle, slots, By::Handle, held as usize, handle.0) {
        Ok(at) => {
            let s = Slot(by_handle[at]);
            if sorted_index::name(slots, s, By::Key) != key.0 {
                return HandleSeat::Elsewhere;
            }
            HandleSeat::UnderKey(s)
        }
        Err(gap) => HandleSeat::Nowhere(gap),
    }
}

// The gaps of a key and of a handle.
#[derive(Clone, Copy)]
pub struct Gaps {
    pub key: usize,
    pub handle: usize,
}

// The gaps of a key and of a handle that no page has.
pub fn find_gaps(
    memory: LentView<'_>,
    head: PageCache,
    key: PageCacheKey,
    handle: PageHandle,
) -> Gaps
    requires { Unseated (memory_seen memory) head key.0 handle.0 }
    ensures { GapsOf (memory_seen memory.entry) head.held key.0 handle.0 result }
{
    let n = head.held as usize;
    Gaps {
        key: sorted_index::gap(memory.by_key, memory.slots, By::Key, n, key.0),
        handle: sorted_index::gap(memory.by_handle, memory.slots, By::Handle, n, handle.0),
    }
}
