// What is written of a database. Each clause says how far a line moves the output's end on: a line behind `begin_line` has room.
ghost use Rattle.std.specs.Prelude.{◌+◌, ◌≤◌, OnOk};

use crate::database_file::Checked;
use crate::totals::Totals;
use btree_check::Fault;
use database_header::Database;
use std::fmt::{Result, Write};
use text::Output;

pub fn write_sizes(output: &mut Output<'_, impl Print>, database: Database) -> Result
    requires { output.old.end + 75 ≤ 131072 }
    ensures { OnOk result (output.new.end ≤ output.old.end + 75) }
{
    write_both(output, database.page_size, database.reserved)
}

fn write_both(output: &mut Output<'_, impl Print>, page_size: u32, reserved: u8) -> Result
    requires { output.old.end + 75 ≤ 131072 }
    ensures { OnOk result (output.new.end ≤ output.old.end + 75) }
{
    writeln!(
        output,
        "page size: {page_size} bytes\nreserved: {reserved} bytes"
    )
}

// The line of a page.
pub fn write_page(output: &mut Output<'_, impl Print>, checked: Checked) -> Result
    requires { output.old.end + 77 ≤ 131072 }
    ensures { OnOk result (output.new.end ≤ output.old.end + 77) }
{
    let Err(fault) = checked.answer else {
        return write_good(output, checked.number);
    };
    // A page that is cut off fails by its length. The sizes are the header's, which was refused if they are bad: the other faults have an
    // offset.
    let offset = fault.offset().unwrap_or(checked.count);
    write_bad(output, checked.number, fault, offset)
}

fn write_good(output: &mut Output<'_, impl Print>, number: u32) -> Result
    requires { output.old.end + 77 ≤ 131072 }
    ensures { OnOk result (output.new.end ≤ output.old.end + 77) }
{
    writeln!(output, "page {number}: yes")
}

fn write_bad(
    output: &mut Output<'_, impl Print>,
    number: u32,
    fault: Fault,
    offset: usize,
) -> Result
    requires { output.old.end + 77 ≤ 131072 }
    ensures { OnOk result (output.new.end ≤ output.old.end + 77) }
{
    writeln!(output, "page {number}: no: {fault}, offset {offset}")
}

pub fn write_totals(output: &mut Output<'_, impl Print>, totals: Totals) -> Result
    requires { output.old.end + 79 ≤ 131072 }
    ensures { OnOk result (output.new.end ≤ output.old.end + 79) }
{
    write_counts(output, totals.pages(), totals.yes, totals.no)
}

fn write_counts(output: &mut Output<'_, impl Print>, pages: u32, yes: u32, no: u32) -> Result
    requires { output.old.end + 79 ≤ 131072 }
    ensures { OnOk result (output.new.end ≤ output.old.end + 79) }
{
    writeln!(output, "pages: {pages}\nyes: {yes}\nno: {no}")
}
