// A replay record applied to any memory: its bytes are read, the memory is tested if a call is asked for, and it is carried
// out. This is document 01's replay program without its reading and writing.
//
// `apply` asks nothing of what it is lent. Callers may rely on `Applied` (specs/Applied.antt): a bad record is answered with 17
// and alters nothing; a creation does what `Creates` says; a call does what `Called` says, which is 1 and nothing altered on
// memory that is not sound, and the model's step on memory that is. `Applied` is deterministic (`applied_same` in
// proofs/Same.antt).
#![tactic(auto)]

ghost use Rattle.pool.specs.Decides.{Decides};
ghost use Rattle.memory.specs.Memory.{memory_in, memory_seen, SameSlices};
ghost use Rattle.contract.specs.Called.{lent};
ghost use Rattle.dispatch.specs.Runs.{Runnable};
ghost use Rattle.apply.specs.Applied.{Applied};

use answer::{Answer, Answered};
use dispatch::dispatch;
use memory::{LentMemory, LentView};
use page::PageCache;
use replay_record::decode;
use soundness::is_sound;

// Carries out what the bytes ask for.
pub fn apply(
    bytes: &[u8],
    memory: &mut LentMemory<'_>,
    list: &mut [u32],
    head: PageCache,
) -> Answered
    ensures same { SameSlices memory.old memory.new }
    ensures applied { Applied bytes.now (lent (memory_in memory.old) list.old) head (lent (memory_in memory.new) list.new) result }
{
    let Some(asked) = decode(bytes) else {
        return Answered::plain(Answer::BadReplay, head);
    };
    memory.words_fit();
    if !is_ready(memory.view(), head, asked.operation) {
        return Answered::plain(Answer::NotSound, head);
    }
    let answered = dispatch(memory, list, head, asked);
    memory.words_fit();
    answered
}

// Whether the operation may be carried out: a creation on any memory, and a call on sound memory. Any other operation is refused
// later, whatever the memory.
fn is_ready(memory: LentView<'_>, head: PageCache, operation: u8) -> bool
    ensures { Decides result (Runnable operation (memory_seen memory.entry) head) }
{
    if (operation < 1) | (operation > 17) {
        return true;
    }
    is_sound(memory, head)
}
