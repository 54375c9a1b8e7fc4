// The file of a log, and its frames.
ghost use Rattle.std.specs.Prelude.{◌≡◌, ◌≤◌};

use crate::failure::Failure;
use input::fill;
use std::io::{Error, Read};
use wal_checksum::Sums;
use wal_frame::{Frame, next_frame};
use wal_header::{HEADER_LENGTH, Header};

// A frame with the largest page: its header of 24 bytes and 65,536.
pub const PIECE: usize = 65560;

#[derive(Drop)]
pub struct LogFile<F> {
    file: F,
    pub header: Header,
    ghost fits: { header.page_size ≤ 65536 },
}

impl<F: Read + Drop> LogFile<F> {
    // Reads the header.
    #[tactic(auto, unfolding(wal_header::specs::Header::opened, wal_header::specs::Header::header_of))]
    pub fn open(mut file: F) -> Result<LogFile<F>, Failure> {
        let mut piece = [0u8; HEADER_LENGTH];
        let (count, read) = fill(&mut file, &mut piece);
        read?;
        let header = wal_header::open(&piece[..count])?;
        Ok(LogFile { file, header })
    }

    // Reads the next frame, if a valid one follows those with these sums. The piece is for its bytes. It is lent: in a field it would be
    // copied with each value that has the file in it.
    pub fn next_frame(
        &mut self,
        piece: &mut [u8; PIECE],
        sums: Sums,
    ) -> Result<Option<Frame>, Error>
        ensures { self.new.header ≡ self.old.header }
    {
        let length = wal_frame::length(self.header);
        let (count, read) = fill(&mut self.file, &mut piece[..length]);
        read?;
        Ok(next_frame(&piece[..count], self.header, sums))
    }
}
