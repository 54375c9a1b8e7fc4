// The file that a word names.
ghost use Rattle.std.specs.Prelude.{◌≤◌, length};

use std::env::{Env, FillError};
use std::io::{Error, ErrorKind, Result};
use std::rt::Files;
use std::{fs, str};

// Opens the file that word 1 names. The name stands at the start of `name` after, and the number is its length: all of `name` if the word
// is longer.
pub fn open_argument<R: Env + Files>(rt: &R, name: &mut [u8]) -> (usize, Result<R::File>)
    ensures { result.0 ≤ length name.old }
{
    match rt.arg(1, name) {
        Ok(count) => (count, open_read(rt, &name[..count])),
        Err(why) => (name.len(), Err(reason_of(why))),
    }
}

// A file's name is text, for the system's files here.
fn open_read<R: Files>(rt: &R, name: &[u8]) -> Result<R::File> {
    let path = str::from_utf8(name).map_err(|_| Error::from(ErrorKind::InvalidFilename))?;
    fs::open(rt, path)
}

// The system's numbers for an argument that is not there, and for one that is too long: by these alone the library makes its `Error` of a
// `FillError`.
const MISSING: i32 = 22;

const TOO_LONG: i32 = 36;

fn reason_of(why: FillError) -> Error {
    match why {
        FillError::NotPresent => Error::from_raw_os_error(MISSING),
        FillError::TooLong => Error::from_raw_os_error(TOO_LONG),
    }
}
