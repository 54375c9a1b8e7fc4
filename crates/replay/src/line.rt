// The lines of records. That of an answer: code, value, passed, held, hand's key or `-`, list length, then the handles. Each clause says how
// far a line moves the output's end on: a record's lines have room behind `begin_line`.
ghost use Rattle.std.specs.Prelude.{◌+◌, ◌≤◌, OnOk};

use crate::cache::{Cache, SLOTS};
use answer::Answered;
use page::PageCacheKey;
use std::fmt::{Result, Write};
use text::Output;

pub fn write_answer(
    output: &mut Output<'_, impl Print>,
    cache: &Cache,
    answered: Answered,
) -> Result
    requires { output.old.end + 6000 ≤ 131072 }
    ensures { OnOk result (output.new.end ≤ output.old.end + 6000) }
{
    let code = answer::code_of(answered.answer);
    let value = answer::value_of(answered.answer);
    write_numbers(output, code, value, answered.passed, cache.head.held)?;
    write_hand(output, cache.hand_key())?;
    write_next(output, answered.listed)?;
    write_handles(output, &cache.list, answered.listed)?;
    end_line(output)
}

// Code, value, passed and held.
fn write_numbers(
    output: &mut Output<'_, impl Print>,
    code: u8,
    value: u32,
    passed: u64,
    held: u32,
) -> Result
    requires { output.old.end + 83 ≤ 131072 }
    ensures { OnOk result (output.new.end ≤ output.old.end + 83) }
{
    write!(output, "{code} {value} {passed} {held}")
}

// The key of the hand's page, or `-` if nothing is held.
fn write_hand(output: &mut Output<'_, impl Print>, hand: Option<PageCacheKey>) -> Result
    requires { output.old.end + 21 ≤ 131072 }
    ensures { OnOk result (output.new.end ≤ output.old.end + 21) }
{
    match hand {
        Some(key) => write_next(output, key.0),
        None => write!(output, " -"),
    }
}

// The first places of the list.
fn write_handles(output: &mut Output<'_, impl Print>, list: &[u32; SLOTS], count: u32) -> Result
    requires { output.old.end + 5376 ≤ 131072 }
    ensures { OnOk result (output.new.end ≤ output.old.end + 5376) }
{
    let count = SLOTS.min(count as usize);
    for handle in &list[..count] {
        write_next(output, *handle)?;
    }
    Ok(())
}

// A space and a number.
fn write_next(output: &mut Output<'_, impl Print>, number: u32) -> Result
    requires { output.old.end + 21 ≤ 131072 }
    ensures { OnOk result (output.new.end ≤ output.old.end + 21) }
{
    write!(output, " {number}")
}

pub fn end_line(output: &mut Output<'_, impl Print>) -> Result
    requires { output.old.end + 1 ≤ 131072 }
    ensures { OnOk result (output.new.end ≤ output.old.end + 1) }
{
    writeln!(output)
}

// The line of a record that is cut short.
pub fn write_bad(output: &mut Output<'_, impl Print>) -> Result
    requires { output.old.end + 4 ≤ 131072 }
    ensures { OnOk result (output.new.end ≤ output.old.end + 4) }
{
    writeln!(output, "bad")
}
