//! The search for the file that is named, among the paths at which it may be.

ghost use Rattle.std.specs.Prelude.{◌≡◌, IfOk};
ghost use Rattle.addr2line_debug_files.specs.NamedFiles.{build_id_of, is_this, is_named, file_for};
ghost use Rattle.addr2line_debug_files.specs.Searches.{Finds};

use crate::candidates::{Candidate, Identity};
use crate::checksum::crc32;
use crate::files::{FilesByPath, NamedFile};
use crate::links::build_id;
use crate::readable::if_readable;
use addr2line_elf::Elf;
use bytes::Bytes;
use std::alloc::{AllocError, Global};

/// The first of the candidates whose file is the one that is named. Each is asked for once, in
/// order, and none after that one. It reads the headers of each file, or for a CRC-32 the file
/// once. After a refusal it isn't said which candidates were asked for.
pub fn find_first<F: FilesByPath>(
    alloc: Global,
    candidates: &[Candidate],
    files: &mut F,
) -> Result<Option<NamedFile>, AllocError>
    ensures { IfOk result (λ found. Finds F.answers candidates.now files.old found files.new) }
{
    for candidate in candidates {
        let answer = files.read(candidate.path.as_slice())?;
        if let Some(file) = file_for(alloc, &candidate.identity, answer)? {
            return Ok(Some(file));
        }
    }
    Ok(None)
}

// The file at a candidate's path, if there is one and it is the one that is named.
fn file_for(
    alloc: Global,
    identity: &Identity,
    answer: Option<NamedFile>,
) -> Result<Option<NamedFile>, AllocError>
    ensures { IfOk result (λ file. file ≡ file_for identity.now answer) }
{
    match answer {
        Some(file) if is_named(alloc, identity, &file.bytes)? => Ok(Some(file)),
        _ => Ok(None),
    }
}

/// Whether a file is the one that is named. Takes memory for the headers of an ELF file. It reads
/// those, or for a CRC-32 the file once.
pub fn is_named(alloc: Global, identity: &Identity, bytes: &Bytes) -> Result<bool, AllocError>
    ensures { IfOk result (λ named. named ≡ is_named identity.now bytes.now) }
{
    match identity {
        Identity::BuildId(id) => has_build_id(alloc, bytes, id.as_slice()),
        Identity::Crc(crc) => Ok(crc32(bytes.as_slice()) == *crc),
    }
}

fn has_build_id(alloc: Global, bytes: &Bytes, id: &[u8]) -> Result<bool, AllocError>
    ensures { IfOk result (λ has. has ≡ is_this id.now (build_id_of bytes.now)) }
{
    match build_id_of(alloc, bytes)? {
        Some(own) => Ok(own.as_slice() == id),
        None => Ok(false),
    }
}

// The build identifier of a file, if it is an ELF file and has one.
fn build_id_of(alloc: Global, bytes: &Bytes) -> Result<Option<Bytes>, AllocError>
    ensures { IfOk result (λ id. id ≡ build_id_of bytes.now) }
{
    match if_readable(Elf::parse(alloc, bytes.clone()?))? {
        Some(elf) => build_id(alloc, &elf),
        None => Ok(None),
    }
}
