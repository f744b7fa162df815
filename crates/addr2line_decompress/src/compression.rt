//! The bytes of compressed sections (System V ABI, "Section Compression", and GNU's old form).

ghost use Rattle.std.specs.Prelude.{◌≡◌, ◌*◌, nat_le};
ghost use Rattle.gimli_core_readers.specs.Calls.{ReturnsAs};
ghost use Rattle.addr2line_inflate.specs.Streams.{inflated};
ghost use Rattle.addr2line_decompress.specs.DecompressResults.{DecompressesAsOrNoMemory, or_stream};
ghost use Rattle.addr2line_decompress.specs.Compression.{compression_header, old_header, size_of};
ghost use Rattle.addr2line_decompress.specs.CompressedSections.{refuse_kind, stream_with, stream_after, stream_of, old_stream, old_content};

use crate::constants::{ELFCOMPRESS_ZLIB, ELFCOMPRESS_ZSTD, MOST_OF_ONE_BYTE};
use crate::error::{DecompressError, stream_refused};
use addr2line_elf::class::Class;
use addr2line_inflate::inflate;
use gimli_core_readers::{EndianSlice, Error, Reader, RunTimeEndian};
use std::alloc::Global;
use std::marker::Model;

/// What a flagged section begins with.
#[derive(Clone, Copy, Debug, PartialEq, Eq)]
pub struct CompressionHeader {
    /// How the section is compressed (ELFCOMPRESS_*).
    pub kind: u32,
    /// The size of the text in bytes.
    pub size: u64,
}

impl CompressionHeader {
    // The header that a section begins with.
    #[tactic(auto, unfolding(crate::specs::Compression::compression_header))]
    fn read(
        input: &mut EndianSlice<'_, RunTimeEndian>,
        class: Class,
    ) -> Result<CompressionHeader, Error>
        ensures { ReturnsAs (λ header. (header, input.new)) result
            (compression_header class input.old) }
    {
        let word_size = class.word_size();
        let kind = input.read_u32()?;
        input.skip(word_size - 4)?;
        let size = input.read_uint(word_size)?;
        input.skip(word_size)?;
        Ok(CompressionHeader { kind, size })
    }
}

// The size that a section in GNU's old form begins with, after four letters.
fn read_old_header(input: &mut EndianSlice<'_, RunTimeEndian>) -> Result<u64, Error>
    ensures { ReturnsAs (λ size. (size, input.new)) result (old_header input.old) }
{
    input.skip(4)?;
    let size = input.read_u64()?;
    Ok(size)
}

/// The new bytes of a section: the text of a stream, or bytes as they are.
#[derive(Debug, Drop)]
pub struct Content<'a> {
    bytes: &'a [u8],
    text_size: Option<u64>,
}

impl<'a> Model for Content<'a> {
    ghost use Rattle.addr2line_decompress.specs.Compression.{Content};

    ghost Value = { Content };

    ghost view = { λ c. record { bytes = c.bytes.now; text_size = c.text_size } };
}

impl<'a> Content<'a> {
    // Bytes as they are.
    pub(crate) fn plain(bytes: &'a [u8]) -> Content<'a>
        ensures { result ≡ record { bytes = bytes.now; text_size = None } }
    {
        Content {
            bytes,
            text_size: None,
        }
    }

    // The stream of the flagged section of an index.
    pub(crate) fn read(
        mut section: EndianSlice<'a, RunTimeEndian>,
        class: Class,
        index: usize,
    ) -> Result<Content<'a>, DecompressError>
        ensures { DecompressesAsOrNoMemory (λ content. content) result
            (stream_of index class section.entry) }
    {
        match CompressionHeader::read(&mut section, class) {
            Ok(header) => Content::after(header, section.slice(), index),
            Err(_) => Err(DecompressError::HeaderCut(index)),
        }
    }

    // The stream after a header.
    fn after(
        header: CompressionHeader,
        bytes: &'a [u8],
        index: usize,
    ) -> Result<Content<'a>, DecompressError>
        ensures { DecompressesAsOrNoMemory (λ content. content) result
            (stream_after index header bytes.now) }
    {
        refuse_kind(header.kind, index)?;
        Content::stream(header.size, bytes, index)
    }

    // A stream with the size of its text.
    fn stream(size: u64, bytes: &'a [u8], index: usize) -> Result<Content<'a>, DecompressError>
        ensures { DecompressesAsOrNoMemory (λ content. content) result
            (stream_with index size bytes.now) }
    {
        if !can_make(bytes.len() as u64, size) {
            return Err(DecompressError::ImpossibleSize(index));
        }
        Ok(Content {
            bytes,
            text_size: Some(size),
        })
    }

    // The bytes of the section of an index that has a name of GNU's old form.
    pub(crate) fn read_old(section: &'a [u8], index: usize) -> Result<Content<'a>, DecompressError>
        ensures { DecompressesAsOrNoMemory (λ content. content) result
            (old_content index section.now) }
    {
        if section.starts_with(b"ZLIB") {
            Content::read_old_stream(section, index)
        } else {
            Ok(Content::plain(section))
        }
    }

    // The stream of a section in GNU's old form.
    fn read_old_stream(section: &'a [u8], index: usize) -> Result<Content<'a>, DecompressError>
        ensures { DecompressesAsOrNoMemory (λ content. content) result
            (old_stream index section.now) }
    {
        let mut input = EndianSlice::new(section, RunTimeEndian::Big);
        match read_old_header(&mut input) {
            Ok(size) => Content::stream(size, input.slice(), index),
            Err(_) => Err(DecompressError::HeaderCut(index)),
        }
    }

    // How many bytes there are, of a stream those of its text.
    pub(crate) fn size(&self) -> u64
        ensures { result ≡ size_of self.now }
    {
        match self.text_size {
            Some(size) => size,
            None => self.bytes.len() as u64,
        }
    }

    // The size of the text, if it is that of a stream.
    pub(crate) fn text_size(&self) -> Option<u64>
        ensures { result ≡ self.now.text_size }
    {
        self.text_size
    }

    // The bytes as they are.
    pub(crate) fn bytes(&self) -> &'a [u8]
        ensures { result.now ≡ self.now.bytes }
    {
        self.bytes
    }

    // The text of the stream, which has a size.
    pub(crate) fn text(
        &self,
        alloc: Global,
        size: u64,
        index: usize,
    ) -> Result<Vec<u8>, DecompressError>
        ensures { DecompressesAsOrNoMemory (λ text. text.items) result
            (or_stream index (inflated self.now.bytes size)) }
    {
        match inflate(alloc, self.bytes, size) {
            Ok(text) => Ok(text),
            Err(error) => Err(stream_refused(index, error)),
        }
    }
}

// Refuses all types but that of the zlib format.
fn refuse_kind(kind: u32, index: usize) -> Result<(), DecompressError>
    ensures { DecompressesAsOrNoMemory (λ _. tt) result (refuse_kind index kind) }
{
    match kind {
        ELFCOMPRESS_ZLIB => Ok(()),
        ELFCOMPRESS_ZSTD => Err(DecompressError::Zstandard(index)),
        _ => Err(DecompressError::UnknownCompression(index, kind)),
    }
}

// Whether a number of bytes can make a text of a size.
fn can_make(len: u64, size: u64) -> bool
    ensures { result ≡ nat_le size (MOST_OF_ONE_BYTE * len) }
{
    match len.checked_mul(MOST_OF_ONE_BYTE) {
        Some(most) => size <= most,
        None => true,
    }
}
