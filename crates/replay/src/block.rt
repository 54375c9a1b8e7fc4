// The records of a block of input, one after another.
ghost use Rattle.std.specs.Prelude.{◌+◌, ◌≤◌, OnOk};

use crate::cache::Cache;
use crate::line::{write_answer, write_bad};
use crate::state::write_state;
use answer::Answered;
use input::fill;
use std::fmt;
use std::io::Read;
use text::Output;

// 2,048 records.
const BLOCK: usize = 65536;

const RECORD: usize = 32;

// Reads a block, answers its records and writes their lines out, each with the pool's if `states`, the program's one option. Whether there
// may be another block.
pub fn replay(
    stdin: &mut impl Read,
    output: &mut Output<'_, impl Print>,
    cache: &mut Cache,
    states: bool,
) -> Result<bool, fmt::Error> {
    let mut block = [0u8; BLOCK];
    // A read that failed counts as the input's end.
    let (count, _) = fill(stdin, &mut block);
    let (records, rest) = block[..count].as_chunks::<RECORD>();
    let answered = answer_all(output, cache, records, states);
    // This is tried though a line before it could not be written.
    if !rest.is_empty() {
        write_bad(output)?;
    }
    output.flush()?;
    answered?;
    Ok(count == BLOCK)
}

// Each line is begun where there is room for it, so that none is split; after the last there is room for `bad`.
fn answer_all(
    output: &mut Output<'_, impl Print>,
    cache: &mut Cache,
    records: &[[u8; RECORD]],
    states: bool,
) -> fmt::Result
    ensures { output.new.end ≤ 131000 }
{
    // For `bad`, if there is no record.
    output.begin_line()?;
    for record in records {
        output.begin_line()?;
        let answered = cache.apply(record);
        if let Err(closed) = write_lines(output, cache, answered, states) {
            // What could not be written is dropped already: this writes nothing, and tells it.
            let _ = output.flush();
            return Err(closed);
        }
    }
    Ok(())
}

// The line of an answer, and if asked the line of the pool that it left.
fn write_lines(
    output: &mut Output<'_, impl Print>,
    cache: &Cache,
    answered: Answered,
    states: bool,
) -> fmt::Result
    requires { output.old.end + 28000 ≤ 131072 }
    ensures { OnOk result (output.new.end ≤ output.old.end + 28000) }
{
    write_answer(output, cache, answered)?;
    if states {
        write_state(output, cache)?;
    }
    Ok(())
}
