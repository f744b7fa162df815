//! A writer into memory.

ghost use Rattle.std.specs.Prelude.{◌≡◌, []};
ghost use Rattle.gimli_lines_write_bytes.specs.NumberBytes.{constant_of};

use crate::address::Address;
use crate::error::Error;
use crate::word::Word;
use crate::writer::Writer;
use gimli_core_base::Endianity;
use std::alloc::Global;
use std::marker::Model;
use std::mem;

/// Bytes in memory, written in an order. It relocates nothing: a symbol is refused as an address.
#[derive(Debug, Drop)]
pub struct EndianVec<E: Endianity> {
    vec: Vec<u8>,
    endian: E,
}

impl<E: Endianity> Model for EndianVec<E> {
    ghost use Rattle.gimli_lines_write_bytes.specs.OutputBytes.{WriterContents};

    ghost Value = { WriterContents };

    ghost view = { λ w. record { bytes = w.vec.items; is_big = E.is_big w.endian } };
}

impl<E: Endianity> EndianVec<E> {
    /// A writer with no bytes yet. It takes no memory.
    pub fn new(alloc: Global, endian: E) -> Self
        ensures { result ≡ record { bytes = []; is_big = E.is_big endian } }
    {
        EndianVec {
            vec: Vec::new(alloc),
            endian,
        }
    }

    /// The bytes written, lent.
    pub fn slice(&self) -> &[u8]
        ensures { result.now ≡ self.now.bytes }
    {
        self.vec.as_slice()
    }

    /// The bytes written.
    pub fn into_vec(self) -> Vec<u8>
        ensures { result.items ≡ self.bytes }
    {
        self.vec
    }

    /// The bytes written, after which the writer has none. It takes no memory.
    pub fn take(&mut self, alloc: Global) -> Vec<u8>
        ensures bytes { result.items ≡ self.old.bytes }
        ensures after { self.new ≡ record self.old { bytes = [] } }
    {
        mem::replace(&mut self.vec, Vec::new(alloc))
    }
}

impl<E: Endianity> Writer for EndianVec<E> {
    type Endian = E;

    ghost contents = { λ w. w };

    ghost address_of = { constant_of };

    fn endian(&self) -> E {
        self.endian
    }

    fn len(&self) -> usize {
        self.vec.len()
    }

    fn write(&mut self, bytes: &[u8]) -> Result<(), Error> {
        self.vec.extend_from_slice(bytes)?;
        Ok(())
    }

    fn write_at(&mut self, offset: usize, bytes: &[u8]) -> Result<(), Error> {
        if offset > self.vec.len() {
            return Err(Error::OffsetOutOfBounds);
        }
        if bytes.len() > self.vec.len() - offset {
            return Err(Error::LengthOutOfBounds);
        }
        self.vec[offset..offset + bytes.len()].copy_from_slice(bytes);
        Ok(())
    }

    fn truncate(&mut self, len: usize) {
        self.vec.truncate(len);
    }

    fn write_address(&mut self, address: Address, size: u8) -> Result<(), Error> {
        match address {
            Address::Constant(val) => {
                let word = Word::unsigned(self.endian, val, size)?;
                self.write(word.bytes())
            }
            Address::Symbol { .. } => Err(Error::InvalidAddress),
        }
    }

    ghost use Rattle.std.proofs.Common.{refl};

    ghost constants = { λ _. refl };
}
