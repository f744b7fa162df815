//! Split files that are decompressed.

ghost use Rattle.std.specs.Prelude.{◌≡◌, IfErr, Ok, Some, option_map};
ghost use Rattle.addr2line_context.specs.Calls.{ReturnsOrNoMemory};
ghost use Rattle.addr2line_context.specs.Error.TheVariants.{Memory};
ghost use Rattle.addr2line_context.specs.Results.{and_then};
ghost use Rattle.addr2line_loader.specs.DecompressedFiles.{decompressed_answer, decompressed_or_same};

use addr2line_context::Error;
use addr2line_decompress::{DebugSections, DecompressError, decompressed_sections};
use addr2line_split::SplitSource;
use bytes::Bytes;
use std::alloc::Global;
use std::marker::Model;

/// The split files of a source, with the sections that lookups read decompressed. A file that can't
/// be decompressed is given as it is, so that whoever loads it refuses it.
#[derive(Drop)]
pub struct DecompressedSource<S> {
    alloc: Global,
    source: S,
}

impl<S> Model for DecompressedSource<S> {
    ghost Value = { S };

    ghost view = { λ d. d.source };
}

impl<S> DecompressedSource<S> {
    ghost use Rattle.std.specs.Prelude.{◌≡◌};

    /// The split files of a source.
    pub fn new(alloc: Global, source: S) -> Self
        ensures { result ≡ source }
    {
        DecompressedSource { alloc, source }
    }
}

impl<S: SplitSource> SplitSource for DecompressedSource<S> {
    ghost use Rattle.std.specs.Prelude.{ℕ, List, Option, Result};
    ghost use Rattle.addr2line_context.specs.Calls.{ReturnsOrNoMemory};
    ghost use Rattle.addr2line_context.specs.Error.{Error};
    ghost use Rattle.addr2line_loader.specs.DecompressedFiles.{decompressed_answer};

    ghost answers = { λ old directory name result new.
        (answer : Result (Option (List ℕ)) Error)
        × S.answers old directory name answer new
        × ReturnsOrNoMemory result (decompressed_answer answer) };

    fn get(&mut self, directory: &[u8], name: &[u8]) -> Result<Option<Bytes>, Error> {
        let answer = self.source.get(directory, name);
        decompressed_answer(self.alloc, answer)
    }
}

// What a source answered, decompressed.
fn decompressed_answer(
    alloc: Global,
    answer: Result<Option<Bytes>, Error>,
) -> Result<Option<Bytes>, Error>
    requires { IfErr answer (λ e. e ≡ Memory) }
    ensures file { ReturnsOrNoMemory result (decompressed_answer answer) }
    ensures memory { IfErr result (λ e. e ≡ Memory) }
{
    match answer? {
        Some(bytes) => Ok(Some(decompressed_or_same(alloc, bytes)?)),
        None => Ok(None),
    }
}

// The bytes of a file, decompressed if they can be. The only refusal is out of memory.
fn decompressed_or_same(alloc: Global, bytes: Bytes) -> Result<Bytes, Error>
    ensures file { ReturnsOrNoMemory result (Ok (decompressed_or_same bytes)) }
    ensures memory { IfErr result (λ e. e ≡ Memory) }
{
    match decompressed_sections(alloc, bytes.clone()?, DebugSections::Lookups) {
        Ok(text) => Ok(text),
        Err(DecompressError::Memory) => Err(Error::Memory),
        Err(_) => Ok(bytes),
    }
}
