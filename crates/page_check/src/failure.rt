// Why there is nothing to write of a database, or no more. wal_scan has such an enum too: a case and the words differ, and over a type for
// the fault each would still need its own.
use database_header::Fault;
use std::fmt;
use std::fmt::{Display, Formatter};
use std::io::Error;
use text::Reason;

#[derive(Clone, Copy)]
pub enum Failure {
    // The file can't be opened or read.
    Unread(Error),
    NoDatabase(Fault),
    // The file has no byte of the first page that was asked for.
    NoSuchPage(u32),
    // The output can't be written.
    Unwritten,
}

impl From<Error> for Failure {
    fn from(reason: Error) -> Failure {
        Failure::Unread(reason)
    }
}

impl From<Fault> for Failure {
    fn from(fault: Fault) -> Failure {
        Failure::NoDatabase(fault)
    }
}

// An `Output` tells no more than that.
impl From<fmt::Error> for Failure {
    fn from(_: fmt::Error) -> Failure {
        Failure::Unwritten
    }
}

impl Display for Failure {
    fn fmt<W: fmt::Write>(&self, f: &mut Formatter<W>) -> fmt::Result {
        match *self {
            Failure::Unread(reason) => f.write(Reason(reason)),
            Failure::NoDatabase(fault) => match fault.offset() {
                Some(at) => write!(f, "no database: {fault}, offset {at}"),
                None => write!(f, "no database: {fault}"),
            },
            Failure::NoSuchPage(number) => write!(f, "no such page: {number}"),
            Failure::Unwritten => write!(f, "the output can't be written"),
        }
    }
}
