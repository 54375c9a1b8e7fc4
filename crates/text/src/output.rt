// The output, put together in memory.
ghost use Rattle.std.specs.Prelude.{◌≡◌, ◌+◌, ◌≤◌, IsOk, length};
ghost use Rattle.text.specs.Output.{PutAtEnd};

use std::fmt;

// The bytes of the output.
pub const ROOM: usize = 131072;

// Above this the output is full: 31,072 bytes are left for a line.
const FULL: usize = 100000;

// An error tells that the output can't be written, and not why: there is nobody to tell.
//
// Not std's `BufWriter`: that is on the heap, splits lines, and when it is dropped writes what it still has, though a write has failed or
// the program wants none of it written.
#[derive(Drop)]
pub struct Output<'a, P> {
    to: &'a P,
    bytes: [u8; ROOM],
    // How many of the bytes are put there.
    pub end: usize,
    ghost within: { end ≤ 131072 },
}

impl<'a, P: Print> Output<'a, P> {
    pub fn new(to: &'a P) -> Output<'a, P>
        ensures { result.end ≡ 0 }
    {
        Output {
            to,
            bytes: [0; ROOM],
            end: 0,
        }
    }

    // Before a line: writes the output out if it is full, so that the line is not split.
    pub fn begin_line(&mut self) -> fmt::Result
        ensures { self.new.end ≤ 100000 }
    {
        if self.end > FULL {
            self.flush()?;
        }
        Ok(())
    }

    // Writes the output out. What can't be written is dropped.
    pub fn flush(&mut self) -> fmt::Result
        ensures { self.new.end ≡ 0 }
    {
        let end = self.end;
        self.end = 0;
        self.to
            .write_all(&self.bytes[..end])
            .map_err(|_| fmt::Error)
    }

    // There is no room for the bytes. No line of a program here comes to this.
    #[cold]
    #[inline(never)]
    fn write_past_end(&mut self, bytes: &[u8]) -> fmt::Result {
        self.flush()?;
        self.to.write_all(bytes).map_err(|_| fmt::Error)
    }
}

impl<P: Print> fmt::Write for Output<'_, P> {
    ghost write_str_gives = { λ old text new. PutAtEnd old.end text new.end };

    #[inline(always)]
    fn write_str(&mut self, text: &str) -> fmt::Result
        ensures ok { IsOk result → PutAtEnd self.old.end text.now self.new.end }
        ensures room { self.old.end + length text.now ≤ 131072 → IsOk result }
    {
        let bytes = text.as_bytes();
        if bytes.len() > ROOM - self.end {
            return self.write_past_end(bytes);
        }
        let end = self.end + bytes.len();
        self.bytes[self.end..end].copy_from_slice(bytes);
        self.end = end;
        Ok(())
    }
}
