// Which call a record asks for.
ghost use Rattle.std.specs.Prelude.{◌≡◌};
ghost use Rattle.memory.specs.Memory.{memory_in, SameSlices};
ghost use Rattle.contract.specs.Called.{lent};
ghost use Rattle.dispatch.specs.Runs.{Runnable, Ran};

use crate::creation::create;
use answer::{Answer, Answered};
use caller_updates::{notify_page_dirty, notify_page_spilled, set_spill_enabled, write_record};
use clearing::clear;
use deletion::delete;
use insertion::{InsertMode, NewPage, insert_page};
use lookups::{get, peek, release_page};
use memory::LentMemory;
use page::PageCache;
use replay_record::Record;
use resizing::{evict, resize};
use spilling::check_spill;
use truncation::{delete_clean_pages_after_wal_frame, truncate};

// Carries out what a record asks for. An operation above 17 is answered with 17. The arms go by number, as the table `operations` does
// that the contract cites; calls that are lent two parts of the memory are handed these.
pub fn dispatch(
    memory: &mut LentMemory<'_>,
    list: &mut [u32],
    head: PageCache,
    asked: Record,
) -> Answered
    requires { Runnable asked.operation (memory_in memory.old) head }
    ensures same { SameSlices memory.old memory.new }
    ensures ran { Ran asked (lent (memory_in memory.old) list.old) head (lent (memory_in memory.new) list.new) result }
{
    let Record {
        operation,
        option,
        key,
        page,
        number,
        ..
    } = asked;
    match operation {
        0 => create(memory, head, number),
        1 => insert_page(memory, list, head, page_of(asked, InsertMode::Plain)),
        2 => insert_page(memory, list, head, page_of(asked, InsertMode::Forced)),
        3 => insert_page(memory, list, head, page_of(asked, InsertMode::Upsert)),
        4 => get(memory, list, head, key),
        5 => {
            let (slots, by_key) = (&mut *memory.slots, &mut *memory.by_key);
            peek(slots, by_key, head, key, option)
        }
        6 => delete(memory, list, head, key),
        7 => resize(memory, list, head, number),
        8 => truncate(memory, list, head, number),
        9 => delete_clean_pages_after_wal_frame(memory, list, head, number),
        10 => clear(memory, list, head, option),
        11 => {
            let (slots, by_key) = (&mut *memory.slots, &mut *memory.by_key);
            notify_page_dirty(slots, by_key, head, key)
        }
        12 => {
            let (slots, by_key) = (&mut *memory.slots, &mut *memory.by_key);
            notify_page_spilled(slots, by_key, head, key)
        }
        13 => {
            let (slots, by_key) = (&mut *memory.slots, &mut *memory.by_key);
            write_record(slots, by_key, head, key, page)
        }
        14 => {
            let (slots, by_key) = (&mut *memory.slots, &mut *memory.by_key);
            check_spill(slots, by_key, list, head, number)
        }
        15 => evict(memory, list, head),
        16 => set_spill_enabled(head, option),
        17 => {
            let (slots, by_key) = (&mut *memory.slots, &mut *memory.by_key);
            release_page(slots, by_key, head, key)
        }
        18..=255 => Answered::plain(Answer::BadReplay, head),
    }
}

// The page that a record asks to insert.
fn page_of(asked: Record, mode: InsertMode) -> NewPage
    ensures { result ≡ record { key = asked.key; handle = asked.handle; page = asked.page; mode = mode } }
{
    NewPage {
        key: asked.key,
        handle: asked.handle,
        page: asked.page,
        mode,
    }
}
