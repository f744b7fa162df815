//! Parts of an image's bytes, to be read or shared.

ghost use Rattle.std.specs.Prelude.{◌≡◌};
ghost use Rattle.gimli_core_readers.specs.View.{bytes_left, prefix};
ghost use Rattle.addr2line_elf.specs.ImageLoading.{read_in, bytes_at, InFile, LoadsOrNoMemory};

use crate::error::LoadError;
use crate::file_parts::FileParts;
use bytes::Bytes;
use gimli_core_readers::{EndianBytes, EndianSlice, Error, Reader, ReaderOffsetId, RunTimeEndian};
use std::marker::Model;

// A file's bytes, in an order. A byte's identifier is its offset.
#[derive(Debug, Drop)]
pub(crate) struct ElfFile {
    pub parts: FileParts,
    pub endian: RunTimeEndian,
}

impl Model for ElfFile {
    ghost use Rattle.gimli_core_readers.specs.ByteOrders.{is_big_endian};
    ghost use Rattle.gimli_core_readers.specs.View.{View};

    ghost Value = { View };

    ghost view = { λ f. record {
      bytes = f.parts.bytes;
      is_big = is_big_endian f.endian;
      first = 0;
    } };
}

// A read of the file's bytes as a step of loading: an error is that of the file's end, unless it
// is out of memory.
pub(crate) fn in_file<T>(read: Result<T, Error>) -> Result<T, LoadError>
    ensures { InFile read result }
{
    match read {
        Ok(value) => Ok(value),
        Err(Error::Memory) => Err(LoadError::Memory),
        Err(_) => Err(LoadError::Truncated),
    }
}

impl ElfFile {
    // The number of the file's bytes.
    pub(crate) fn len(&self) -> u64
        ensures { result ≡ bytes_left self.now }
    {
        self.parts.len()
    }

    // A number of bytes from an offset on, to be read. Takes no memory.
    #[tactic(auto, using(crate::proofs::RangeReads::range_read))]
    pub(crate) fn input_at(
        &self,
        offset: u64,
        size: u64,
    ) -> Result<EndianSlice<'_, RunTimeEndian>, LoadError>
        ensures { LoadsOrNoMemory result (read_in self.now (bytes_at offset size)) }
    {
        let bytes = self.parts.slice(offset, size)?;
        Ok(EndianSlice::with_first_id(bytes, self.endian, ReaderOffsetId(offset)))
    }

    // A number of bytes from an offset on, shared.
    #[tactic(auto, using(crate::proofs::RangeReads::range_read))]
    pub(crate) fn part_at(
        &self,
        offset: u64,
        size: u64,
    ) -> Result<EndianBytes<RunTimeEndian>, LoadError>
        ensures { LoadsOrNoMemory result (read_in self.now (bytes_at offset size)) }
    {
        let bytes = self.parts.share(offset, size)?;
        Ok(EndianBytes::with_first_id(bytes, self.endian, ReaderOffsetId(offset)))
    }

    // No bytes, as of a section that isn't there.
    pub(crate) fn nothing(&self) -> EndianBytes<RunTimeEndian>
        ensures { result ≡ prefix 0 self.now }
    {
        EndianBytes::new(Bytes::new(), self.endian)
    }
}

// The bytes of a reader, to be read from the start. Takes no memory.
pub(crate) fn input_of(file: &EndianBytes<RunTimeEndian>) -> EndianSlice<'_, RunTimeEndian>
    ensures { result ≡ file.now }
{
    let bytes = file.as_bytes();
    EndianSlice::with_first_id(bytes, file.endian(), file.offset_id())
}
