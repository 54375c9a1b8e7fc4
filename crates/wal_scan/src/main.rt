// Lists the valid frames of a write-ahead log of SQLite.
//
//     wal_scan LOG
//
//     page size: 4096 bytes
//     frame 1: page 1, commit size 0 pages
//     frame 2: page 2, commit size 2 pages
//     frames: 2
//     commits: 1
//     last commit: frame 2, 2 pages
//     end offset: 8272 bytes
//     end sums: 305419896 2271560481
//
//     log_file.rt   the header, and the next frame
//     scanning.rt   the frames one after another
//     lines.rt      what is written of each
//     failure.rt    why there is no log, or no more of it
//
// Which frames are valid, and what is counted of them, is in the contracts of `wal_frames`. What is here reads and writes, one
// frame at a time, so that a log of any length takes the same memory. Why there is no log, or no more of it, is a line on
// standard error. The program ends where the valid frames end, or where no more can be read or written.
#![tactic(auto)]

mod failure;
mod lines;
mod log_file;
mod scanning;

use failure::Failure;
use log_file::LogFile;
use std::env::Env;
use std::io::{Error, Read};
use std::rt::Files;
use text::{Output, say};

// The longest name of a file: with `wal_scan: ` before it, 131,072 bytes.
const NAME: usize = 131062;

fn main(rt: HostRuntime) {
    let stderr = rt.stderr();
    if input::word_count(&rt, 3) == 2 {
        scan_argument(&rt, &stderr);
    } else {
        let _ = stderr.write_all(b"usage: wal_scan LOG\n");
    }
}

// The file that the argument names.
fn scan_argument(rt: &(impl Env + Files + Print), stderr: &impl Print) {
    let mut name = [0u8; NAME];
    let (length, opened) = input::open_argument(rt, &mut name);
    let mut output = Output::new(rt);
    match scan(opened, &mut output) {
        // There is nobody to tell.
        Ok(()) | Err(Failure::Unwritten) => {}
        Err(failure) => say(stderr, "wal_scan", &name[..length], failure),
    }
    // What is left of it, after the message.
    let _ = output.flush();
}

fn scan(
    opened: Result<impl Read + Drop, Error>,
    output: &mut Output<'_, impl Print>,
) -> Result<(), Failure> {
    let mut log = LogFile::open(opened?)?;
    scanning::scan(&mut log, output)
}
