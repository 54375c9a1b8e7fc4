// The cache for programs in C and Rust: the functions that the archive of this crate exports, on numbers and slices alone. They
// ask nothing of what they are lent: any lengths and any contents get a defined answer, and a refusal alters nothing.
//
//     pc_create    makes a cache
//     pc_test      whether the memory is sound
//     pc_list      the held pages
//     pc_apply     carries out a replay record
//
// Each is one call of a proved function that takes any memory, with the head read before it and written after it. There are no
// rules here, and crate c_numbers has heads and answers as numbers. Callers may rely on specs/Exports.antt. Each function answers
// with document 01's code. A head that is not of 5 numbers, or an answer that is not of 6, is 16 for every function, and nothing else
// is looked at. Numbers that are no head are read as a head with which no memory is sound, so that a call answers 1 and a creation
// can still be made.
#![tactic(auto)]

ghost use Rattle.memory.specs.Memory.{memory_of, memories};
ghost use Rattle.contract.specs.Called.{lent};
ghost use Rattle.apply.specs.Applied.{Applied};
ghost use Rattle.page_cache_c.specs.Exports.{Makes, Tests, Lists, Applies};

use answer::Answered;
use apply::apply;
use c_numbers::{HEAD, listing_code, put_answer, put_answered, put_created, read_head};
use creating::create;
use listing::list_pages;
use memory::{LentMemory, LentView};
use page::PageCache;
use soundness::is_sound;

// The numbers of an answer: code, value, passed, held, the hand's key or none, listed.
const ANSWER: usize = 6;

// What a test answers. C has no enum: these are document 01's numbers.
const SOUND: u32 = 0;

const NOT_SOUND: u32 = 1;

// A head or an answer has another length.
const BAD_LENGTHS: u32 = 16;

// Makes a cache of any memory, and its head.
#[unsafe(no_mangle)]
pub extern "C" fn pc_create(
    slots: &mut [u64],
    by_key: &mut [u32],
    by_handle: &mut [u32],
    marks: &mut [u64],
    head: &mut [u64],
    capacity: u64,
) -> u32
    ensures { let m = memories slots by_key by_handle marks in Makes capacity m.entry head.old m.exit head.new result }
{
    let Some(head) = head.as_mut_array::<HEAD>() else {
        return BAD_LENGTHS;
    };
    let mut memory = LentMemory {
        slots,
        by_key,
        by_handle,
        marks,
    };
    put_created(head, create(&mut memory, capacity))
}

// Whether the memory is sound: 0 if it is, 1 if not.
#[unsafe(no_mangle)]
pub extern "C" fn pc_test(
    slots: &[u64],
    by_key: &[u32],
    by_handle: &[u32],
    marks: &[u64],
    head: &[u64],
) -> u32
    ensures { Tests (memory_of slots.now by_key.now by_handle.now marks.now) head.now result }
{
    let Some(head) = head.as_array::<HEAD>() else {
        return BAD_LENGTHS;
    };
    let memory = LentView {
        slots,
        by_key,
        by_handle,
        marks,
    };
    if is_sound(memory, read_head(head)) {
        SOUND
    } else {
        NOT_SOUND
    }
}

// Lists the held pages in sweep order, eight numbers to a page. There are as many as the head says that are held.
#[unsafe(no_mangle)]
pub extern "C" fn pc_list(
    slots: &[u64],
    by_key: &[u32],
    by_handle: &[u32],
    marks: &[u64],
    head: &[u64],
    list: &mut [u64],
) -> u32
    ensures { Lists (memory_of slots.now by_key.now by_handle.now marks.now) head.now list.old list.new result }
{
    let Some(head) = head.as_array::<HEAD>() else {
        return BAD_LENGTHS;
    };
    let memory = LentView {
        slots,
        by_key,
        by_handle,
        marks,
    };
    listing_code(list_pages(memory, read_head(head), list))
}

// Carries out what 32 bytes ask for. The answer's numbers are written, and its code is handed back too.
#[unsafe(no_mangle)]
pub extern "C" fn pc_apply(
    slots: &mut [u64],
    by_key: &mut [u32],
    by_handle: &mut [u32],
    marks: &mut [u64],
    head: &mut [u64],
    list: &mut [u32],
    bytes: &[u8],
    answer: &mut [u64],
) -> u32
    ensures { let m = memories slots by_key by_handle marks in Applies bytes.now (lent m.entry list.old) head.old answer.old (lent m.exit list.new) head.new answer.new result }
{
    let Some(head) = head.as_mut_array::<HEAD>() else {
        return BAD_LENGTHS;
    };
    if answer.len() != ANSWER {
        return BAD_LENGTHS;
    }
    let answered = apply_to(
        bytes,
        slots,
        by_key,
        by_handle,
        marks,
        list,
        read_head(head),
    );
    put_answered(head, answered);
    put_answer(answer, slots, answered)
}

// The same for a head that was read. The slices are C's, one by one, and `pc_apply` reads the slots again when this has ended: so the
// memory is put together here, and is gone with it.
fn apply_to(
    bytes: &[u8],
    slots: &mut [u64],
    by_key: &mut [u32],
    by_handle: &mut [u32],
    marks: &mut [u64],
    list: &mut [u32],
    head: PageCache,
) -> Answered
    ensures { let m = memories slots by_key by_handle marks in Applied bytes.now (lent m.entry list.old) head (lent m.exit list.new) result }
{
    let mut memory = LentMemory {
        slots,
        by_key,
        by_handle,
        marks,
    };
    apply(bytes, &mut memory, list, head)
}
