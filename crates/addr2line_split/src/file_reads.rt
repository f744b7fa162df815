//! Files, read whole, or by the parts that a loader needs.

ghost use Rattle.std.specs.Prelude.{◌≡◌, ℕ, Bool, List, Result, IfErr, IfOk, length};
ghost use Rattle.std.specs.IoError.{error_kind};
ghost use Rattle.std.specs.Path.{path_bytes};
ghost use Rattle.addr2line_elf.specs.LoadErrors.{IsReadRefusal};
ghost use Rattle.addr2line_elf.specs.declared.error.LoadError.{LoadError};
ghost use Rattle.addr2line_split.specs.FileReads.{AreRead, IsRead, ReadsRegularFile, read_refusal, if_readable};

use addr2line_elf::{FileParts, LoadError, PartSource, read_needed};
use addr2line_unit::Error;
use bytes::Bytes;
use std::alloc::Global;
use std::fs::{self, File, OpenFile};
use std::io;
use std::io::{ErrorKind, Read, Seek, SeekFrom};
use std::path::{AsPath, Path};
use std::rt::Files;

/// The bytes of a file, read once into one buffer of its size, which readers then share. Refused is
/// a file that can't be read, as `Io`, and out of memory, as `Memory`.
pub fn read_file<R: Files + AllocGlobal, P: AsPath>(rt: &R, path: P) -> Result<Bytes, LoadError>
    ensures { IsRead result }
{
    match read_bytes(rt, path) {
        Ok(bytes) => Ok(bytes),
        Err(error) => Err(refusal_of(&error)),
    }
}

/// What a loader needs of a file, as `read_needed` reads it: each part once, into a buffer of its
/// size; or all bytes, where those are needed, and of what is no regular file. Refused is a file
/// that can't be read, or that ends before a part that was there when it was opened, as `Io`, and
/// out of memory, as `Memory`.
pub fn read_parts<R: Files + AllocGlobal, P: AsPath>(
    rt: &R,
    path: P,
) -> Result<FileParts, LoadError>
    ensures { AreRead result }
{
    match File::open(rt, path) {
        Ok(file) => read_opened(rt.alloc(), file),
        Err(error) => Err(refusal_of(&error)),
    }
}

// The parts of an open file, or all of it.
fn read_opened<F: Read + Seek + OpenFile + Drop>(
    alloc: Global,
    file: F,
) -> Result<FileParts, LoadError>
    ensures { AreRead result }
{
    let len = regular_len(&file);
    let mut file = OpenParts { alloc, file };
    match read_needed(alloc, &mut file, len)? {
        Some(parts) => Ok(parts),
        None => read_whole(alloc, &mut file.file, len),
    }
}

// All bytes of an open file, as one part.
fn read_whole<F: Read + Seek + OpenFile>(
    alloc: Global,
    file: &mut F,
    len: u64,
) -> Result<FileParts, LoadError>
    ensures { AreRead result }
{
    match read_again(alloc, file, len) {
        Ok(bytes) => Ok(FileParts::whole(alloc, bytes)?),
        Err(error) => Err(refusal_of(&error)),
    }
}

// The number of bytes of a regular file; 0 where it isn't one, or isn't known to be.
fn regular_len<F: OpenFile>(file: &F) -> u64 {
    match file.metadata() {
        Ok(metadata) if metadata.is_file() => metadata.len(),
        _ => 0,
    }
}

// An open file as a source of its parts.
#[derive(Drop)]
struct OpenParts<F> {
    alloc: Global,
    file: F,
}

// The toolchain says nothing of what a file's bytes are, so none are known.
impl<F: Read + Seek> PartSource for OpenParts<F> {
    ghost is_file = { λ source file. ⊥ };

    fn read_at(&mut self, offset: u64, size: u64) -> Result<Bytes, LoadError> {
        match read_range(self.alloc, &mut self.file, offset, size) {
            Ok(bytes) => Ok(bytes),
            Err(error) => Err(refusal_of(&error)),
        }
    }
}

// The bytes of a range, in a buffer of their number.
fn read_range<F: Read + Seek>(
    alloc: Global,
    file: &mut F,
    offset: u64,
    size: u64,
) -> io::Result<Bytes>
    ensures { IfOk result (λ bytes. length bytes ≡ size) }
{
    file.seek(SeekFrom::Start(offset))?;
    let mut bytes = Vec::with_capacity(alloc, (size as usize).saturating_add(1))?;
    file.by_ref().take(size).read_to_end(&mut bytes)?;
    if bytes.len() as u64 != size {
        return Err(io::Error::from(ErrorKind::UnexpectedEof));
    }
    Ok(Bytes::from_vec(bytes)?)
}

// All bytes of an open file, of which parts were read where it has a length.
fn read_again<F: Read + Seek + OpenFile>(
    alloc: Global,
    file: &mut F,
    len: u64,
) -> io::Result<Bytes> {
    if len > 0 {
        file.rewind()?;
    }
    read_all(alloc, file)
}

// All bytes of an open file from its position on.
fn read_all<F: Read + Seek + OpenFile>(alloc: Global, file: &mut F) -> io::Result<Bytes> {
    let mut bytes = Vec::with_capacity(alloc, room_for(file))?;
    file.read_to_end(&mut bytes)?;
    Ok(Bytes::from_vec(bytes)?)
}

/// A file system: what its paths lead to, and the bytes of its files.
pub trait FileSystem {
    // What a call may answer, by the file system, the path and the answer.
    ghost answers_kind: { Self → List ℕ → Result Bool LoadError → Type 0 };

    ghost answers_bytes: { Self → List ℕ → Result (List ℕ) LoadError → Type 0 };

    /// Whether a path leads to a regular file, which has an end; a device or a pipe may have none.
    /// Refused are out of memory, as `Memory`, and a path that leads nowhere, as `Io`.
    fn has_regular_file(&self, path: Path<'_>) -> Result<bool, LoadError>
        ensures answer { answers_kind self.now (path_bytes path.entry) result }
        ensures refusal { IfErr result IsReadRefusal };

    /// The bytes of the file of a path. Refused are out of memory, as `Memory`, and a file that
    /// can't be read, as `Io`.
    fn read_file(&self, path: Path<'_>) -> Result<Bytes, LoadError>
        ensures answer { answers_bytes self.now (path_bytes path.entry) result }
        ensures refusal { IfErr result IsReadRefusal };
}

// The file system of a runtime. The toolchain says nothing of what it answers.
impl<R: Files + AllocGlobal> FileSystem for R {
    ghost answers_kind = { λ _ path answer. Unit {0} };

    ghost answers_bytes = { λ _ path answer. Unit {0} };

    fn has_regular_file(&self, path: Path<'_>) -> Result<bool, LoadError> {
        match fs::metadata(self, path) {
            Ok(metadata) => Ok(metadata.is_file()),
            Err(error) => Err(refusal_of(&error)),
        }
    }

    fn read_file(&self, path: Path<'_>) -> Result<Bytes, LoadError> {
        read_file(self, path)
    }
}

// The bytes of a file whose name an image gives: nothing but a regular file is read. All else is
// refused as a file that can't be read.
pub(crate) fn read_regular_file<F: FileSystem>(
    files: &F,
    path: Path<'_>,
) -> Result<Bytes, LoadError>
    ensures { ReadsRegularFile (F.answers_kind files.now) (F.answers_bytes files.now)
        (path_bytes path.entry) result }
{
    if files.has_regular_file(path)? {
        files.read_file(path)
    } else {
        Err(LoadError::Io)
    }
}

// Why a read is refused: out of memory, or that the file can't be read.
fn refusal_of(error: &io::Error) -> LoadError
    ensures { result ≡ read_refusal (error_kind error.now) }
{
    match error.kind() {
        ErrorKind::OutOfMemory => LoadError::Memory,
        _ => LoadError::Io,
    }
}

fn read_bytes<R: Files + AllocGlobal, P: AsPath>(rt: &R, path: P) -> io::Result<Bytes> {
    let mut file = File::open(rt, path)?;
    read_all(rt.alloc(), &mut file)
}

// Room for a file, and for one byte more, so that the read that finds its end needs no other. What
// can't say its size is read into room that grows.
fn room_for<F: OpenFile>(file: &F) -> usize {
    match file.metadata() {
        Ok(metadata) => (metadata.len() as usize).saturating_add(1),
        Err(_) => 0,
    }
}

// What was read, if it can be read. The only refusal is out of memory.
pub(crate) fn if_readable<T>(read: Result<T, LoadError>) -> Result<Option<T>, Error>
    ensures { result ≡ if_readable read }
{
    match read {
        Ok(value) => Ok(Some(value)),
        Err(LoadError::Memory) => Err(Error::Memory),
        Err(_) => Ok(None),
    }
}
