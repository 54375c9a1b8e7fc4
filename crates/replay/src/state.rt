// The line of a pool: `-`, capacity, spill switch, estimate, held, then key, handle, use count and holders of each page in sweep order.
ghost use Rattle.std.specs.Prelude.{◌+◌, ◌≤◌, OnOk};

use crate::cache::{Cache, SLOTS};
use crate::line::end_line;
use std::fmt::{Result, Write};
use text::Output;

pub fn write_state(output: &mut Output<'_, impl Print>, cache: &Cache) -> Result
    requires { output.old.end + 22000 ≤ 131072 }
    ensures { OnOk result (output.new.end ≤ output.old.end + 22000) }
{
    let mut pages = [[0u64; 8]; SLOTS];
    let Ok(count) = cache.list_pages(&mut pages) else {
        return write_no_cache(output);
    };
    let head = cache.head;
    write_head(output, head.capacity, head.spill, head.estimate, head.held)?;
    write_pages(output, &pages, count)?;
    end_line(output)
}

// Before the first good creation.
fn write_no_cache(output: &mut Output<'_, impl Print>) -> Result
    requires { output.old.end + 22000 ≤ 131072 }
    ensures { OnOk result (output.new.end ≤ output.old.end + 22000) }
{
    writeln!(output, "- no cache")
}

// `-`, capacity, spill switch, estimate and held.
fn write_head(
    output: &mut Output<'_, impl Print>,
    capacity: u32,
    spill: u8,
    estimate: u32,
    held: u32,
) -> Result
    requires { output.old.end + 85 ≤ 131072 }
    ensures { OnOk result (output.new.end ≤ output.old.end + 85) }
{
    write!(output, "- {capacity} {spill} {estimate} {held}")
}

fn write_pages(output: &mut Output<'_, impl Print>, pages: &[[u64; 8]; SLOTS], count: u32) -> Result
    requires { output.old.end + 21504 ≤ 131072 }
    ensures { OnOk result (output.new.end ≤ output.old.end + 21504) }
{
    let count = SLOTS.min(count as usize);
    for page in &pages[..count] {
        let [key, handle, _, _, holders, _, _, uses] = *page;
        write_page(output, key, handle, uses, holders)?;
    }
    Ok(())
}

fn write_page(
    output: &mut Output<'_, impl Print>,
    key: u64,
    handle: u64,
    uses: u64,
    holders: u64,
) -> Result
    requires { output.old.end + 84 ≤ 131072 }
    ensures { OnOk result (output.new.end ≤ output.old.end + 84) }
{
    write!(output, " {key}:{handle}:{uses}:{holders}")
}
