// Why there is no log, or no more of it. page_check has such an enum too, and says why there are two.
use std::fmt;
use std::fmt::{Display, Formatter};
use std::io::Error;
use text::Reason;
use wal_header::Fault;

#[derive(Clone, Copy)]
pub enum Failure {
    // The log can't be opened or read.
    Unread(Error),
    BadHeader(Fault),
    // The output can't be written.
    Unwritten,
}

impl From<Error> for Failure {
    fn from(reason: Error) -> Failure {
        Failure::Unread(reason)
    }
}

impl From<Fault> for Failure {
    fn from(fault: Fault) -> Failure {
        Failure::BadHeader(fault)
    }
}

// An `Output` tells no more than that.
impl From<fmt::Error> for Failure {
    fn from(_: fmt::Error) -> Failure {
        Failure::Unwritten
    }
}

impl Display for Failure {
    fn fmt<W: fmt::Write>(&self, f: &mut Formatter<W>) -> fmt::Result {
        match *self {
            Failure::Unread(reason) => f.write(Reason(reason)),
            Failure::BadHeader(fault) => write!(f, "bad header: {fault}"),
            Failure::Unwritten => write!(f, "the output can't be written"),
        }
    }
}
