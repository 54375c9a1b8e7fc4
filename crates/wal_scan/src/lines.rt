// What is written of a log. Each clause says how far a line moves the output's end on: a line behind `begin_line` has room.
ghost use Rattle.std.specs.Prelude.{◌+◌, ◌≤◌, OnOk};

use std::fmt::{Result, Write};
use text::Output;
use wal_frames::{Commit, Summary};

pub fn write_page_size(output: &mut Output<'_, impl Print>, size: u32) -> Result
    requires { output.old.end + 38 ≤ 131072 }
    ensures { OnOk result (output.new.end ≤ output.old.end + 38) }
{
    writeln!(output, "page size: {size} bytes")
}

pub fn write_frame(
    output: &mut Output<'_, impl Print>,
    number: usize,
    page: u32,
    commit: u32,
) -> Result
    requires { output.old.end + 94 ≤ 131072 }
    ensures { OnOk result (output.new.end ≤ output.old.end + 94) }
{
    writeln!(
        output,
        "frame {number}: page {page}, commit size {commit} pages"
    )
}

pub fn write_summary(output: &mut Output<'_, impl Print>, summary: Summary) -> Result
    requires { output.old.end + 300 ≤ 131072 }
    ensures { OnOk result (output.new.end ≤ output.old.end + 300) }
{
    write_counts(output, summary.frames, summary.commits)?;
    write_last(output, summary.last)?;
    write_end(output, summary.end, summary.sums.s0, summary.sums.s1)
}

fn write_counts(output: &mut Output<'_, impl Print>, frames: usize, commits: usize) -> Result
    requires { output.old.end + 60 ≤ 131072 }
    ensures { OnOk result (output.new.end ≤ output.old.end + 60) }
{
    writeln!(output, "frames: {frames}\ncommits: {commits}")
}

fn write_last(output: &mut Output<'_, impl Print>, last: Option<Commit>) -> Result
    requires { output.old.end + 68 ≤ 131072 }
    ensures { OnOk result (output.new.end ≤ output.old.end + 68) }
{
    match last {
        Some(Commit { frame, pages }) => write_commit(output, frame, pages),
        None => writeln!(output, "last commit: none"),
    }
}

fn write_commit(output: &mut Output<'_, impl Print>, frame: usize, pages: u32) -> Result
    requires { output.old.end + 68 ≤ 131072 }
    ensures { OnOk result (output.new.end ≤ output.old.end + 68) }
{
    writeln!(output, "last commit: frame {frame}, {pages} pages")
}

fn write_end(output: &mut Output<'_, impl Print>, end: usize, s0: u32, s1: u32) -> Result
    requires { output.old.end + 98 ≤ 131072 }
    ensures { OnOk result (output.new.end ≤ output.old.end + 98) }
{
    writeln!(output, "end offset: {end} bytes\nend sums: {s0} {s1}")
}
