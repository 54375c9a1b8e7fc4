// Room is made by evictions, one after another.
ghost use Rattle.model.specs.Cache.{Cache};
ghost use Rattle.model.specs.Rooms.{evict_to, make_room};
ghost use Rattle.memory.specs.Memory.{memory_in, SameSlices};
ghost use Rattle.memory.specs.Holds.{Holds};
ghost use Rattle.eviction.specs.Room.{ReadyToEvict, Made};

use crate::evicting::evict_one;
use memory::LentMemory;
use page::PageCache;

// What evictions came to. `full` is a field, and not the error of a Result, since the others count in either case: if no page may go any
// more, those that went before are gone all the same.
#[derive(Clone, Copy)]
pub struct Room {
    // Whether there is no room, because no page may go or the capacity is 0.
    pub full: bool,
    // How many pages were passed, over all sweeps.
    pub passed: u64,
    // How many handles the list has now.
    pub listed: usize,
    // The cache's head from now on.
    pub head: PageCache,
}

// Evicts while more than `target` pages are held. The list has `listed` handles already, and those of the pages that go
// follow them. `listed` stands beside the list, and not with it in a struct: the list is lent by the caller in C, and behind a `&mut` to
// a struct each contract would have to say besides that the same list is in it.
pub fn evict_to(
    memory: &mut LentMemory<'_>,
    list: &mut [u32],
    listed: usize,
    head: PageCache,
    target: u32,
) -> Room
    requires { ReadyToEvict (memory_in memory.old) head list.old listed }
    ensures same { SameSlices memory.old memory.new }
    ensures outcome { (c : Cache) → Holds (memory_in memory.old) head c → Made (evict_to target c) list.old listed (memory_in memory.new) list.new result }
{
    let mut room = Room {
        full: false,
        passed: 0,
        listed,
        head,
    };
    while target < room.head.held {
        match evict_one(memory, room.head) {
            Ok(gone) => {
                list[room.listed] = gone.handle.0;
                room.listed += 1;
                room.passed += gone.passed;
                room.head = gone.head;
            }
            Err(full) => {
                room.full = true;
                room.passed += full.passed;
                return room;
            }
        }
    }
    room
}

// Makes room for one page more. With capacity 0 there is no room to make, and no sweep is tried. The list is lent as in `evict_to`.
pub fn make_room_for(
    memory: &mut LentMemory<'_>,
    list: &mut [u32],
    listed: usize,
    head: PageCache,
) -> Room
    requires { ReadyToEvict (memory_in memory.old) head list.old listed }
    ensures same { SameSlices memory.old memory.new }
    ensures outcome { (c : Cache) → Holds (memory_in memory.old) head c → Made (make_room c) list.old listed (memory_in memory.new) list.new result }
{
    if head.capacity == 0 {
        return Room {
            full: true,
            passed: 0,
            listed,
            head,
        };
    }
    evict_to(memory, list, listed, head, head.capacity - 1)
}
