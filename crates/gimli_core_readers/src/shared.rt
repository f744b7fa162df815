//! A reader of owned bytes that are shared.

ghost use Rattle.std.specs.Prelude.{◌≡◌, ◌+◌, ◌<◌, ◌≤◌, ◌^◌, Bool, false, length, IsOk, IsTrue};
ghost use Rattle.gimli_core_base.specs.View.{View};
ghost use Rattle.gimli_core_base.specs.Calls.{ReturnsAsOrNoMemory};

use crate::reader::Reader;
use bytes::Bytes;
use gimli_core_base::Endianity;
use gimli_core_base::constants::ReaderOffsetId;
use gimli_core_base::error::Error;
use std::marker::Model;

/// Shared bytes in an order, read from the first on. A copy shares the bytes, and takes a little
/// memory.
#[derive(Debug)]
pub struct EndianBytes<E: Endianity> {
    bytes: Bytes,
    endian: E,
    first: u64,
}

// Compiled into its caller: a call would take the reader in memory, and whatever holds one would be
// moved there, also where it is never let go.
impl<E: Endianity> Drop for EndianBytes<E> {
    #[inline(always)]
    fn drop(self) {
        let EndianBytes {
            bytes: _,
            endian: _,
            first: _,
        } = self;
    }
}

impl<E: Endianity> Model for EndianBytes<E> {
    ghost use Rattle.std.specs.Prelude.{◌+◌, ◌<◌, ◌^◌, length};
    ghost use Rattle.gimli_core_base.specs.View.{View};

    ghost Value = { View };

    ghost view = { λ a. record { bytes = a.bytes; is_big = E.is_big a.endian; first = a.first } };

    ghost invariant = { λ a. a.first + length a.bytes < 2 ^ 64 };
}

impl<E: Endianity> EndianBytes<E> {
    /// The first byte's identifier is 0.
    pub fn new(bytes: Bytes, endian: E) -> Self
        ensures { result ≡ record { bytes = bytes; is_big = E.is_big endian; first = 0 } }
    {
        let _count = bytes.len();
        EndianBytes {
            bytes,
            endian,
            first: 0,
        }
    }

    pub fn with_first_id(bytes: Bytes, endian: E, first: ReaderOffsetId) -> Self
        requires { first.0 + length bytes < 2 ^ 64 }
        ensures { result ≡ record { bytes = bytes; is_big = E.is_big endian; first = first.0 } }
    {
        EndianBytes {
            bytes,
            endian,
            first: first.0,
        }
    }
}

impl<E: Endianity> Reader for EndianBytes<E> {
    type Endian = E;

    type Offset = usize;

    ghost view = { λ v. v };

    ghost copies_freely = { false };

    fn endian(&self) -> E {
        self.endian
    }

    fn as_bytes(&self) -> &[u8] {
        let _count = self.bytes.len();
        self.bytes.as_slice()
    }

    fn offset_id(&self) -> ReaderOffsetId {
        ReaderOffsetId(self.first)
    }

    fn advance(&mut self, count: usize) {
        self.bytes.advance(count);
        self.first += count as u64;
    }

    fn truncate(&mut self, len: usize) -> Result<(), Error> {
        if self.bytes.len() < len {
            return Err(Error::UnexpectedEof(self.offset_id()));
        }
        self.bytes.truncate(len);
        Ok(())
    }

    fn copy(&self) -> Result<Self, Error> {
        Ok(EndianBytes {
            bytes: self.bytes.clone()?,
            endian: self.endian,
            first: self.first,
        })
    }

    fn copy_part(&self, begin: usize, count: usize) -> Result<Self, Error> {
        let _count = self.bytes.len();
        Ok(EndianBytes {
            bytes: self.bytes.slice(begin..begin + count)?,
            endian: self.endian,
            first: self.first + begin as u64,
        })
    }
}
