// The listing of the held pages, in any form. The tests are made elsewhere.
ghost use Rattle.memory.specs.Memory.{memory_seen};
ghost use Rattle.listing.specs.Listing.{CanListRow, WritesRow};
ghost use Rattle.listing.specs.Outcome.{ListingEffect};

use crate::form::PageForm;
use crate::listed::page_at;
use crate::testing::{ListingError, admit};
use memory::LentView;
use page::{PageCache, Slot};

// Lists `count` pages of the ring, from slot `hand` on.
pub fn list_ring<T: PageForm>(slots: &[u64], hand: Slot, count: usize, list: &mut [T])
    requires { CanListRow T.form slots.now hand.0 count list.old }
    ensures { WritesRow T.form slots.now hand.0 count list.old list.new }
{
    let mut s = hand;
    for i in 0..count {
        let here = page_at(slots, s);
        T::put_page(list, i, here.page);
        s = here.next;
    }
}

// Lists all held pages of any memory and says how many there are, or refuses and alters nothing.
pub fn list_pages<T: PageForm>(
    memory: LentView<'_>,
    head: PageCache,
    list: &mut [T],
) -> Result<u32, ListingError>
    ensures { ListingEffect T.form (memory_seen memory.entry) head list.old list.new result }
{
    let held = admit(memory, head, T::room(list))?;
    list_ring(memory.slots, head.hand, held as usize, list);
    Ok(held)
}
