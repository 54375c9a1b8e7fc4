// For benchmarks: many replay records on one pool after one soundness test, so that the calls can be measured without it. A
// program that replays traces has no use for this, since it gets no answers.
//
// `pc_bench_run` asks nothing of what it is lent: memory that is not sound is answered with 1 and a head of another length with
// 16, and nothing is done. Its contract says no more than that. Each record is carried out by `dispatch`, whose contract says what it
// does, and that the memory stays sound for the next one.
#![tactic(auto)]

ghost use Rattle.memory.specs.Memory.{memory_in, SameSlices};
ghost use Rattle.memory.specs.Holds.{Sound};

use c_numbers::{HEAD, put_head, read_head};
use dispatch::dispatch;
use memory::LentMemory;
use page::PageCache;
use replay_record::decode;
use soundness::is_sound;

const RECORD: usize = 32;

// One record on sound memory, which stays sound. Bytes that are no record do nothing.
fn run_one(
    bytes: &[u8],
    memory: &mut LentMemory<'_>,
    list: &mut [u32],
    head: PageCache,
) -> PageCache
    requires { Sound (memory_in memory.old) head }
    ensures same { SameSlices memory.old memory.new }
    ensures sound { Sound (memory_in memory.new) result }
{
    let Some(asked) = decode(bytes) else {
        return head;
    };
    dispatch(memory, list, head, asked).head
}

// One record after another.
fn run_each(
    records: &[u8],
    memory: &mut LentMemory<'_>,
    list: &mut [u32],
    head: PageCache,
) -> PageCache
    requires { Sound (memory_in memory.old) head }
    ensures same { SameSlices memory.old memory.new }
{
    let mut now = head;
    for bytes in records.chunks_exact(RECORD) {
        now = run_one(bytes, memory, list, now);
    }
    now
}

// Tests the memory once, and carries out the records. C has no enum: 0 if it did, 1 if the memory is not sound, 16 if the head has another
// length.
#[unsafe(no_mangle)]
pub extern "C" fn pc_bench_run(
    slots: &mut [u64],
    by_key: &mut [u32],
    by_handle: &mut [u32],
    marks: &mut [u64],
    head: &mut [u64],
    list: &mut [u32],
    records: &[u8],
) -> u32 {
    let Some(head) = head.as_mut_array::<HEAD>() else {
        return 16;
    };
    let mut memory = LentMemory {
        slots,
        by_key,
        by_handle,
        marks,
    };
    let before = read_head(head);
    if !is_sound(memory.view(), before) {
        return 1;
    }
    let after = run_each(records, &mut memory, list, before);
    put_head(head, after);
    0
}
