//! Why there is no answer.

use addr2line_context::Error;
use addr2line_elf::LoadError;
use std::alloc::{AllocError, AllocFailed};
use std::{fmt, io};

/// Why there is no answer.
#[derive(Clone, Copy, Debug, PartialEq, Eq)]
pub enum Fault {
    /// A file can't be read, or the answers can't be written.
    Stream,
    /// The image is refused, or a lookup in it.
    Load(LoadError),
}

impl From<Error> for Fault {
    fn from(error: Error) -> Fault {
        Fault::Load(LoadError::from(error))
    }
}

impl From<LoadError> for Fault {
    fn from(error: LoadError) -> Fault {
        Fault::Load(error)
    }
}

impl From<io::Error> for Fault {
    fn from(_error: io::Error) -> Fault {
        Fault::Stream
    }
}

impl From<AllocError> for Fault {
    fn from(_refused: AllocError) -> Fault {
        Fault::Load(LoadError::Memory)
    }
}

impl<T: Drop> From<AllocFailed<T>> for Fault {
    fn from(_refused: AllocFailed<T>) -> Fault {
        Fault::Load(LoadError::Memory)
    }
}

impl fmt::Display for Fault {
    fn fmt<W: fmt::Write>(&self, f: &mut fmt::Formatter<W>) -> fmt::Result {
        match self {
            Fault::Stream => f.write_str("a file can't be read, or the answers can't be written"),
            Fault::Load(error) => write!(f, "{error}"),
        }
    }
}
