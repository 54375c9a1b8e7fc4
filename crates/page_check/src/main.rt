// Says of each page of a database of SQLite whether it can be a b-tree page.
//
//     page_check DATABASE [PAGE]
//
//     page size: 512 bytes
//     reserved: 0 bytes
//     page 1: yes
//     page 2: no: page type, offset 0
//     page 3: no: length, offset 100
//     pages: 3
//     yes: 1
//     no: 2
//
//     asking.rt         which pages are asked for
//     database_file.rt  the header, and the way to the pages
//     listing.rt        the pages one after another
//     totals.rt         how many they are
//     lines.rt          what is written of them
//     failure.rt        why there is nothing to write, or no more
//
// What can be wrong with a header is in the contract of `database_header`, and what with a page in that of `btree_check`. What is here reads
// and writes, one page at a time, so that a database of any length takes the same memory. A page that the file's end cuts off fails by
// its length, and the offset is that of the cut. Overflow, freelist, pointer-map and lock-byte pages are no b-tree pages, and are
// checked like the others. Why there is nothing to write, or no more, is a line on standard error.
#![tactic(auto)]

mod asking;
mod database_file;
mod failure;
mod lines;
mod listing;
mod totals;

use asking::Pages;
use database_file::DatabaseFile;
use failure::Failure;
use std::env::Env;
use std::io::{Error, Read, Seek};
use std::rt::Files;
use text::{Output, say};

// The longest name of a file: with `page_check: ` before it, 131,072 bytes.
const NAME: usize = 131060;

fn main(rt: HostRuntime) {
    let stderr = rt.stderr();
    if let Some(pages) = asking::asked(&rt, &stderr) {
        check_argument(&rt, &stderr, pages);
    }
}

// The database that the argument names.
fn check_argument(rt: &(impl Env + Files + Print), stderr: &impl Print, pages: Pages) {
    let mut name = [0u8; NAME];
    let (length, opened) = input::open_argument(rt, &mut name);
    let mut output = Output::new(rt);
    let checked = check(opened, &mut output, pages);
    match checked {
        // There is nobody to tell.
        Ok(()) | Err(Failure::Unwritten) => {}
        Err(failure) => say(stderr, "page_check", &name[..length], failure),
    }
    // What is left of it, after the message: not the sizes alone, if there is no such page.
    if !matches!(checked, Err(Failure::NoSuchPage(_))) {
        let _ = output.flush();
    }
}

fn check(
    opened: Result<impl Read + Seek + Drop, Error>,
    output: &mut Output<'_, impl Print>,
    pages: Pages,
) -> Result<(), Failure> {
    let mut file = DatabaseFile::open(opened?)?;
    listing::check_pages(&mut file, output, pages)
}
