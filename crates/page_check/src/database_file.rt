// The file of a database, and the way to its pages.
ghost use Rattle.std.specs.Prelude.{◌≤◌};

use crate::failure::Failure;
use btree_check::Fault;
use database_header::{Database, HEADER_LENGTH};
use input::fill;
use std::io::{Error, ErrorKind, Read, Seek, SeekFrom};

// The largest page.
pub const PIECE: usize = 65536;

#[derive(Drop)]
pub struct DatabaseFile<F> {
    file: F,
    pub database: Database,
    ghost fits: { database.page_size ≤ 65536 },
}

// What is said of a page.
#[derive(Clone, Copy)]
pub struct Checked {
    pub number: u32,
    pub answer: Result<(), Fault>,
    // How many of its bytes the file has.
    pub count: usize,
}

impl<F: Read + Seek + Drop> DatabaseFile<F> {
    // Reads the header.
    pub fn open(mut file: F) -> Result<DatabaseFile<F>, Failure> {
        let mut piece = [0u8; HEADER_LENGTH];
        let (count, read) = fill(&mut file, &mut piece);
        read?;
        let database = database_header::open(&piece[..count])?;
        Ok(DatabaseFile { file, database })
    }

    // To the place where the page begins.
    pub fn go_to_page(&mut self, number: u32) -> Result<(), Failure>
        requires { 1 ≤ number }
    {
        let start = (number - 1) as u64 * self.database.page_size as u64;
        match self.file.seek(SeekFrom::Start(start)) {
            Ok(_) => Ok(()),
            // The offset is larger than any file of this file system can be.
            Err(reason) if reason.kind() == ErrorKind::InvalidInput => {
                Err(Failure::NoSuchPage(number))
            }
            Err(reason) => Err(Failure::Unread(reason)),
        }
    }

    // Checks the page at which the file stands, if the file has a byte of it. The piece is for its bytes. It is lent: in a field it would be
    // copied with each value that has the file in it.
    pub fn check_page(
        &mut self,
        piece: &mut [u8; PIECE],
        number: u32,
    ) -> Result<Option<Checked>, Error> {
        let Database {
            page_size,
            reserved,
        } = self.database;
        let (count, read) = fill(&mut self.file, &mut piece[..page_size as usize]);
        read?;
        if count == 0 {
            return Ok(None);
        }
        let answer = btree_check::check(&piece[..count], number, page_size, reserved);
        Ok(Some(Checked {
            number,
            answer,
            count,
        }))
    }
}
