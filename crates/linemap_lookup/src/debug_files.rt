//! Files whose debugging information is compressed, or in a file of its own.

ghost use Rattle.std.specs.Prelude.{◌≡◌, IfErr, IfOk, Ok, OnOk};
ghost use Rattle.addr2line_debug_files.specs.Searches.{FindsDebugFiles};
ghost use Rattle.addr2line_debug_files.specs.declared.debug_files.DebugFiles.{DebugFiles};
ghost use Rattle.addr2line_loader.specs.DecompressResults.{DecompressesAsOrNoMemory, or_image};
ghost use Rattle.addr2line_loader.specs.DecompressedFiles.{decompressed_file};
ghost use Rattle.addr2line_loader.specs.SymbolFiles.{with_symbols_of};
ghost use Rattle.linemap_lookup.specs.FoundFiles.{RefusesDecompression, RefusesFound, RefusesProgram, ReportsNone, ReportsRefusal, debug_bytes, found_file, supplement_or};

use crate::program::{load_out_of_memory, load_refused};
use addr2line_debug_files::{DebugFiles, FilesByPath, NamedFile, find_debug_files};
use addr2line_loader::{DecompressError, Loader};
use addr2line_split::LoadError;
use bytes::Bytes;
use linemap_output::{Ended, fail, write_error_line};
use std::alloc::{AllocError, Global};
use std::io::Write;

/// Loads a file with its supplement, if there is one, both decompressed.
pub fn load_decompressed<E: Write>(
    alloc: Global,
    image: Bytes,
    supplement: Option<Bytes>,
    err: &mut E,
) -> Result<Loader, Ended>
    ensures file { IfOk result (λ loader. decompressed_file image supplement ≡ Ok loader.file) }
    ensures same { OnOk result (err.new ≡ err.old) }
    ensures refusal { IfErr result (RefusesDecompression (decompressed_file image supplement)
        (E.contents err.old) (E.contents err.new)) }
{
    match Loader::from_bytes_decompressed(alloc, image, supplement) {
        Ok(loader) => Ok(loader),
        Err(error) => Err(report_refusal(alloc, error, err)),
    }
}

/// Loads a program whose debugging information may be in a file of its own, with the supplement of
/// that file unless another is given, both decompressed. Where that file has no symbols, they are
/// the program's. Where there is no such file, a line says so of the program's name, and the
/// program itself is loaded.
pub fn load_found<F: FilesByPath, E: Write>(
    alloc: Global,
    name: &str,
    program: &NamedFile,
    folders: &[Bytes],
    supplement: Option<Bytes>,
    files: &mut F,
    err: &mut E,
) -> Result<Loader, Ended>
    ensures file { IfOk result (λ loader. (found : DebugFiles)
        × FindsDebugFiles F.answers program.now folders.now files.old found files.new
        × (found_file program.now supplement found ≡ Ok loader.file)
        × ReportsNone name.now found.debug_file (E.contents err.old) (E.contents err.new)) }
    ensures refusal { IfErr result (RefusesFound F.answers name.now program.now folders.now
        supplement files.old files.new (E.contents err.old) (E.contents err.new)) }
{
    let found = find_files(alloc, program, folders, files, err)?;
    report_none(name, &found.debug_file, err);
    match found_loader(alloc, program, found, supplement) {
        Ok(loader) => Ok(loader),
        Err(error) => Err(report_refusal(alloc, error, err)),
    }
}

// The debug file of a program, and that file's supplement.
fn find_files<F: FilesByPath, E: Write>(
    alloc: Global,
    program: &NamedFile,
    folders: &[Bytes],
    files: &mut F,
    err: &mut E,
) -> Result<DebugFiles, Ended>
    ensures files { IfOk result (λ found.
        FindsDebugFiles F.answers program.now folders.now files.old found files.new) }
    ensures same { OnOk result (err.new ≡ err.old) }
    ensures refusal { IfErr result
        (RefusesProgram program.now (E.contents err.old) (E.contents err.new)) }
{
    match find_debug_files(alloc, program, folders, files) {
        Ok(found) => Ok(found),
        Err(LoadError::Memory) => Err(load_out_of_memory(err)),
        Err(error) => Err(load_refused(alloc, error, err)),
    }
}

// Says that there is no debug file, if there is none.
fn report_none<E: Write>(name: &str, debug_file: &Option<NamedFile>, err: &mut E)
    ensures { ReportsNone name.now debug_file.now (E.contents err.old) (E.contents err.new) }
{
    match debug_file {
        Some(_) => {}
        None => {
            // After a fault of the error stream there is nothing else to do.
            let _ = write_error_line(err, "no debug info found for ", name);
        }
    }
}

// A program with the files that were found for it, loaded.
fn found_loader(
    alloc: Global,
    program: &NamedFile,
    found: DebugFiles,
    supplement: Option<Bytes>,
) -> Result<Loader, DecompressError>
    ensures { DecompressesAsOrNoMemory (λ loader. loader.file) result
        (found_file program.now supplement found) }
{
    let image = debug_bytes(program, found.debug_file)?;
    let supplement = supplement_or(supplement, found.supplement);
    let loader = Loader::from_bytes_decompressed(alloc, image, supplement)?;
    with_symbols_of(alloc, program.bytes.clone()?, loader)
}

// A file that is loaded, with the symbols of another if it has none.
fn with_symbols_of(alloc: Global, other: Bytes, loader: Loader) -> Result<Loader, DecompressError>
    ensures { DecompressesAsOrNoMemory (λ l. l.file) result
        (or_image (with_symbols_of other loader.file)) }
{
    let mut loader = loader;
    match loader.add_symbols_of(alloc, other) {
        Ok(()) => Ok(loader),
        Err(LoadError::Memory) => Err(DecompressError::Memory),
        Err(error) => Err(DecompressError::Image(error)),
    }
}

// The bytes of a debug file, or else those of its program.
fn debug_bytes(program: &NamedFile, debug_file: Option<NamedFile>) -> Result<Bytes, AllocError>
    ensures { IfOk result (λ bytes. bytes ≡ debug_bytes program.now debug_file) }
{
    match debug_file {
        Some(file) => Ok(file.bytes),
        None => program.bytes.clone(),
    }
}

// The bytes of a supplement, if one is given, or else those of the one that was found.
fn supplement_or(supplement: Option<Bytes>, found: Option<NamedFile>) -> Option<Bytes>
    ensures { result ≡ supplement_or supplement found }
{
    match (supplement, found) {
        (Some(bytes), _) => Some(bytes),
        (None, Some(file)) => Some(file.bytes),
        (None, None) => None,
    }
}

// Reports why a file isn't decompressed, or isn't loaded then.
fn report_refusal<E: Write>(alloc: Global, error: DecompressError, err: &mut E) -> Ended
    ensures { ReportsRefusal error (E.contents err.old) (E.contents err.new) result }
{
    match error {
        DecompressError::Memory => load_out_of_memory(err),
        DecompressError::Image(error) => load_refused(alloc, error, err),
        error => match format!(in alloc; "{error}") {
            Ok(text) => fail(err, "failed to decompress debug info: ", &text),
            Err(_) => load_out_of_memory(err),
        },
    }
}
