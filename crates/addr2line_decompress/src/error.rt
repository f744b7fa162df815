//! Why an image isn't decompressed.

ghost use Rattle.std.specs.Prelude.{◌≡◌};
ghost use Rattle.addr2line_decompress.specs.DecompressResults.{image_refusal, stream_refusal};

use addr2line_elf::LoadError;
use addr2line_inflate::InflateError;
use std::alloc::{AllocError, AllocFailed};
use std::fmt;

/// Why an image isn't decompressed. Displayed as a sentence. A section is named by its index in the
/// table of sections.
#[derive(Clone, Copy, Debug, PartialEq, Eq)]
pub enum DecompressError {
    /// Out of memory.
    Memory,
    /// The image isn't loaded.
    Image(LoadError),
    /// The section headers overlap the header of the file.
    OverlappingHeaders,
    /// A section overlaps the section headers.
    OverlappingSection(usize),
    /// The file ends before a section does.
    SectionCut(usize),
    /// A compressed section is that of the names of sections or symbols.
    CompressedNames(usize),
    /// The section of the sections' names, some of which change, has another use, as for those of
    /// symbols.
    SharedNames(usize),
    /// The name of a section doesn't end, where other names change.
    NameCut(usize),
    /// A compressed section ends before its compression header does.
    HeaderCut(usize),
    /// A section is compressed by Zstandard.
    Zstandard(usize),
    /// A section is compressed in another way, of this type (ELFCOMPRESS_*).
    UnknownCompression(usize, u32),
    /// The size of a section's text can't come of the section's bytes.
    ImpossibleSize(usize),
    /// A section's stream has no text.
    Stream(usize, InflateError),
    /// The decompressed image is larger than its class allows, or its section of names too large.
    TooLarge,
}

// The refusal of an image.
pub(crate) fn image_refused(error: LoadError) -> DecompressError
    ensures { result ≡ image_refusal error }
{
    match error {
        LoadError::Memory => DecompressError::Memory,
        other => DecompressError::Image(other),
    }
}

// The refusal of the stream of a section.
pub(crate) fn stream_refused(section: usize, error: InflateError) -> DecompressError
    ensures { result ≡ stream_refusal section error }
{
    match error {
        InflateError::Memory => DecompressError::Memory,
        other => DecompressError::Stream(section, other),
    }
}

impl From<AllocError> for DecompressError {
    ghost use Rattle.std.specs.Prelude.{◌≡◌};
    ghost use Rattle.addr2line_decompress.specs.declared.error.DecompressError.TheVariants.{Memory};

    ghost from_gives = { λ _ e. e ≡ Memory };

    fn from(_refused: AllocError) -> DecompressError {
        DecompressError::Memory
    }
}

impl<T: Drop> From<AllocFailed<T>> for DecompressError {
    ghost use Rattle.std.specs.Prelude.{◌≡◌};
    ghost use Rattle.addr2line_decompress.specs.declared.error.DecompressError.TheVariants.{Memory};

    ghost from_gives = { λ _ e. e ≡ Memory };

    fn from(_refused: AllocFailed<T>) -> DecompressError {
        DecompressError::Memory
    }
}

impl fmt::Display for DecompressError {
    ghost use Rattle.std.specs.Prelude.{Some};
    ghost use Rattle.addr2line_decompress.specs.ErrorText.{error_text};

    ghost output = { λ e. Some (error_text e) };

    fn fmt<W: fmt::Write>(&self, f: &mut fmt::Formatter<W>) -> fmt::Result {
        let (section, reason) = match self {
            DecompressError::Memory => return f.write_str("out of memory"),
            DecompressError::Image(error) => {
                return write!(f, "the image can't be loaded ({error})");
            }
            DecompressError::OverlappingHeaders => {
                return f.write_str("the section headers overlap the file's header");
            }
            DecompressError::UnknownCompression(section, kind) => {
                return write!(
                    f,
                    "section {section} has the unknown compression type {kind}"
                );
            }
            DecompressError::Stream(section, error) => {
                return write!(f, "section {section} has an invalid stream: {error}");
            }
            DecompressError::TooLarge => {
                return f.write_str("the decompressed image is too large for its ELF class");
            }
            DecompressError::OverlappingSection(section) => {
                (*section, "overlaps the section headers")
            }
            DecompressError::SectionCut(section) => {
                (*section, "goes on after the end of the file")
            }
            DecompressError::CompressedNames(section) => {
                (*section, "holds names and is compressed")
            }
            DecompressError::SharedNames(section) => (
                *section,
                "holds more than the names of sections, which change",
            ),
            DecompressError::NameCut(section) => (*section, "has a name that doesn't end"),
            DecompressError::HeaderCut(section) => (*section, "ends in its compression header"),
            DecompressError::Zstandard(section) => (
                *section,
                "is compressed by zstd; run objcopy --decompress-debug-sections on the file first",
            ),
            DecompressError::ImpossibleSize(section) => {
                (*section, "is too small for the size that it claims")
            }
        };
        write!(f, "section {section} {reason}")
    }
}

impl std::error::Error for DecompressError {}
