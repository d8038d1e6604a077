// What ends a journal before its script ends.
use script::answers::Refused;
use script::lines::Malformed;
use std::{fmt, io};
use tables::answer::Errno;

// Why a line has no record.
#[derive(Clone, Copy)]
pub enum Stop {
    Malformed,
    Fresh,
    Refused(Errno),
}

impl From<Malformed> for Stop {
    fn from(_line: Malformed) -> Stop {
        Stop::Malformed
    }
}

impl From<Errno> for Stop {
    fn from(e: Errno) -> Stop {
        Stop::Refused(e)
    }
}

impl fmt::Display for Stop {
    fn fmt<W: fmt::Write>(&self, f: &mut fmt::Formatter<W>) -> fmt::Result {
        match self {
            Stop::Malformed => f.write_str("malformed"),
            Stop::Fresh => f.write_str("fresh, but a journal starts fresh"),
            Stop::Refused(e) => write!(f, "{}", Refused(*e)),
        }
    }
}

// A stream that failed, or a line that has no record, by its number.
#[derive(Drop)]
pub enum Ended {
    Failed(io::Error),
    AtLine(u64, Stop),
}

impl From<io::Error> for Ended {
    fn from(error: io::Error) -> Ended {
        Ended::Failed(error)
    }
}
