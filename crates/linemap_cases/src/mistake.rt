//! Why the program ends early.

use hex::FromHexError;
use std::alloc::{AllocError, AllocFailed};
use std::io;

#[derive(Debug, Drop)]
pub enum Mistake {
    Memory,
    Input,
    /// A word that means nothing where it is.
    Word,
}

impl From<AllocError> for Mistake {
    fn from(_refused: AllocError) -> Mistake {
        Mistake::Memory
    }
}

impl<T: Drop> From<AllocFailed<T>> for Mistake {
    fn from(_refused: AllocFailed<T>) -> Mistake {
        Mistake::Memory
    }
}

impl From<io::Error> for Mistake {
    fn from(error: io::Error) -> Mistake {
        if error.kind() == io::ErrorKind::OutOfMemory {
            Mistake::Memory
        } else {
            Mistake::Input
        }
    }
}

impl From<FromHexError> for Mistake {
    fn from(error: FromHexError) -> Mistake {
        match error {
            FromHexError::OutOfMemory => Mistake::Memory,
            _ => Mistake::Word,
        }
    }
}
