//! Loaders of files whose compressed sections of debugging information are decompressed first.

ghost use Rattle.std.specs.Prelude.{◌≡◌, IfOk};
ghost use Rattle.std.specs.Option.{is_some};
ghost use Rattle.addr2line_context.specs.ResolvedUnits.{RunForRangesAlone};
ghost use Rattle.addr2line_decompress.specs.DecompressResults.{DecompressesAsOrNoMemory};
ghost use Rattle.addr2line_loader.specs.DecompressedFiles.{LoadsDecompressedFiles, decompressed_file, decompressed_if_any, refusal_of};

use crate::files::read_if_any;
use crate::loader::Loader;
use addr2line_decompress::{DebugSections, DecompressError, decompressed_sections};
use addr2line_split::{LoadError, read_file};
use bytes::Bytes;
use std::alloc::Global;
use std::path::AsPath;
use std::rt::Files;

impl Loader {
    /// Loads the file of some bytes, and its supplement, if there is one, as `from_bytes` does, but
    /// the sections that lookups read are decompressed. Where none of a file's is compressed, its
    /// bytes are shared; else memory is taken for them again, and for the text of each section.
    pub fn from_bytes_decompressed(
        alloc: Global,
        image: Bytes,
        supplement: Option<Bytes>,
    ) -> Result<Loader, DecompressError>
        ensures file { DecompressesAsOrNoMemory (λ l. l.file) result
            (decompressed_file image supplement) }
        ensures lines { IfOk result (λ l. RunForRangesAlone l.units) }
    {
        let image = decompressed_sections(alloc, image, DebugSections::Lookups)?;
        let supplement = decompressed_if_any(alloc, supplement)?;
        match Loader::from_bytes(alloc, image, supplement) {
            Ok(loader) => Ok(loader),
            Err(error) => Err(refusal_of(error)),
        }
    }

    /// Reads a file and its supplement, if there is one, and loads both, decompressed.
    pub fn new_decompressed<R: Files + AllocGlobal, P: AsPath, Q: AsPath>(
        rt: &R,
        path: P,
        sup_path: Option<Q>,
    ) -> Result<Loader, DecompressError>
        ensures { LoadsDecompressedFiles (is_some sup_path) result }
    {
        let image = match read_file(rt, path) {
            Ok(image) => image,
            Err(error) => return Err(refusal_of(error)),
        };
        match read_if_any(rt, sup_path) {
            Ok(supplement) => Loader::from_bytes_decompressed(rt.alloc(), image, supplement),
            Err(error) => Err(refusal_of(error)),
        }
    }
}

// A supplement, if there is one, decompressed.
fn decompressed_if_any(
    alloc: Global,
    supplement: Option<Bytes>,
) -> Result<Option<Bytes>, DecompressError>
    ensures { DecompressesAsOrNoMemory (λ s. s) result (decompressed_if_any supplement) }
{
    match supplement {
        Some(bytes) => Ok(Some(decompressed_sections(alloc, bytes, DebugSections::Lookups)?)),
        None => Ok(None),
    }
}

// A refusal of loading as one of decompressing.
fn refusal_of(error: LoadError) -> DecompressError
    ensures { result ≡ refusal_of error }
{
    match error {
        LoadError::Memory => DecompressError::Memory,
        error => DecompressError::Image(error),
    }
}
