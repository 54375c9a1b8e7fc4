// The key is there, and its page is loaded or locked (rule 6).
//
//     the page             plain, forced             upsert
//     same handle          touched, KeyExists        touched and replaced in place
//     another handle       OtherPage                 touched and replaced in place
//
// The slots and the index by handle have to be parts of a memory with a page at the slot, and the handle must stand under no other
// key. Callers may rely on `present` being the model's rule: its answer, and the cache that the memory holds afterwards, whatever the
// other parts are. Nothing is listed, and OtherPage leaves every word as it was.
ghost use Rattle.moves.specs.Moves.{Replaceable};
ghost use Rattle.insertion.specs.Present.{Presents};

use crate::mode::NewPage;
use answer::{Answer, Answered};
use page::{PageCache, Slot};

// The page at slot s is touched, and then replaced if the mode says so. Unless it is replaced, a page with another handle is
// not even touched.
pub fn present(
    slots: &mut [u64],
    by_handle: &mut [u32],
    head: PageCache,
    s: Slot,
    asked: NewPage,
) -> Answered
    requires { Replaceable slots.old by_handle.old head s.0 asked.handle.0 asked.page }
    ensures { Presents slots.old by_handle.old head s.0 asked slots.new by_handle.new result }
{
    let old = pool::load(slots, s).handle;
    if asked.mode.replaces() {
        moves::touch_at(slots, s);
        let after = moves::replace_at(slots, by_handle, head, s, asked.handle, asked.page);
        return Answered::plain(Answer::Done(old.0), after);
    }
    let other_page = old != asked.handle;
    if other_page {
        return Answered::plain(Answer::OtherPage, head);
    }
    moves::touch_at(slots, s);
    Answered::plain(Answer::KeyExists, head)
}
