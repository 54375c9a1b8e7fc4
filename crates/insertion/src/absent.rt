// The key is absent: room is made for the page, and it is placed (rules 5 and 7).
//
//     plain             room is made, or Full
//     forced, upsert    room is made, or a free slot is taken beyond the capacity, or NoSlot
//
// The memory has to hold a cache; the key and the handle have to be new to it, with the gaps that `admit` is told; and the list has to
// have a place for every page that is held. Callers may rely on `admit` being the model's rule: its answer, the pages passed, the
// evicted handles, listed after those that stood in the list before, and the cache that the memory holds afterwards. Evictions stand on
// Full. The indexes are searched again only if a page was evicted.
ghost use Rattle.memory.specs.Memory.{memory_in, memory_seen, SameSlices};
ghost use Rattle.moves.specs.Moves.{GapsOf};
ghost use Rattle.insertion.specs.Admit.{Admissible, Admits, KnownBefore};

use crate::mode::NewPage;
use answer::{Answer, Answered};
use memory::{LentMemory, LentView};
use moves::Gaps;
use page::PageCache;

// The list has `listed` handles already, and those of the pages that are evicted follow them. `listed` stands beside the list, and not with
// it in a struct, as it does in crate eviction (`evict_to`).
pub fn admit(
    memory: &mut LentMemory<'_>,
    list: &mut [u32],
    listed: usize,
    head: PageCache,
    gaps: Gaps,
    asked: NewPage,
) -> Answered
    requires { Admissible (memory_in memory.old) head list.old listed gaps asked }
    ensures same { SameSlices memory.old memory.new }
    ensures outcome { Admits (memory_in memory.old) head list.old listed asked (memory_in memory.new) list.new result }
{
    memory.words_fit();
    let room = eviction::make_room_for(memory, list, listed, head);
    memory.words_fit();
    let count = room.listed as u32;
    if room.full & !asked.mode.goes_in(room.head.held, memory.by_key.len()) {
        return Answered {
            answer: asked.mode.turned_away(),
            passed: room.passed,
            listed: count,
            head: room.head,
        };
    }
    let right = gaps_now(memory.view(), room.head, listed, room.listed, gaps, asked);
    let after = moves::place(
        memory,
        room.head,
        right,
        asked.key,
        asked.handle,
        asked.page,
    );
    Answered {
        answer: Answer::Done(0),
        passed: room.passed,
        listed: count,
        head: after,
    }
}

// The gaps once room was made, when `count` handles are listed. If that is as many as before, no page went, and they are the same.
fn gaps_now(
    memory: LentView<'_>,
    head: PageCache,
    listed: usize,
    count: usize,
    gaps: Gaps,
    asked: NewPage,
) -> Gaps
    requires { KnownBefore (memory_seen memory) head listed count gaps asked }
    ensures { GapsOf (memory_seen memory.entry) head.held asked.key.0 asked.handle.0 result }
{
    if count == listed {
        return gaps;
    }
    moves::find_gaps(memory, head, asked.key, asked.handle)
}
