// A piece of a file into memory.
ghost use Rattle.std.specs.Prelude.{◌≤◌, length};

use std::io::{Read, Result};

// Reads the next bytes of the input to the start of the piece, until it is full, the input ends or a read fails. The number is how many
// were read, before a read failed too.
// Not `read_exact`, which doesn't tell how many, nor `read_to_end`, whose bytes are on the heap.
pub fn fill(file: &mut impl Read, piece: &mut [u8]) -> (usize, Result<()>)
    ensures { result.0 ≤ length piece.old }
{
    let mut count = 0;
    while count < piece.len() {
        match file.read(&mut piece[count..]) {
            Ok(0) => return (count, Ok(())),
            Ok(more) => count += more,
            Err(reason) => return (count, Err(reason)),
        }
    }
    (count, Ok(()))
}
