//! Why a case can't be read or run.

use rz_core::NoMemory;
use std::alloc::{AllocError, AllocFailed};
use std::error::Error;
use std::fmt;

/// Why a case can't be read or run.
#[derive(Debug, Drop)]
pub enum Trouble {
    /// This line of the case file has another form than the format.
    Malformed { line: usize, what: &'static str },
    /// The case file can't be read, or isn't UTF-8.
    Unread,
    /// Memory was refused.
    NoMemory,
}

impl fmt::Display for Trouble {
    fn fmt<W: fmt::Write>(&self, f: &mut fmt::Formatter<W>) -> fmt::Result {
        match self {
            Trouble::Malformed { line, what } => write!(f, "{line}: {what}"),
            Trouble::Unread => write!(f, "the file can't be read as UTF-8"),
            Trouble::NoMemory => write!(f, "no memory"),
        }
    }
}

impl Error for Trouble {}

impl From<AllocError> for Trouble {
    fn from(_: AllocError) -> Trouble {
        Trouble::NoMemory
    }
}

impl<T: Drop> From<AllocFailed<T>> for Trouble {
    fn from(_: AllocFailed<T>) -> Trouble {
        Trouble::NoMemory
    }
}

impl From<NoMemory> for Trouble {
    fn from(_: NoMemory) -> Trouble {
        Trouble::NoMemory
    }
}
