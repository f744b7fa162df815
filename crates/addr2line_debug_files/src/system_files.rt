//! Files of the file system.

use crate::files::{FilesByPath, NamedFile};
use bytes::Bytes;
use std::alloc::AllocError;
use std::fs::{self, File, OpenFile};
use std::io::{self, ErrorKind, Read};
use std::path::PathBuf;
use std::rt::Files;
use std::str;

/// Files of the file system. A path that isn't UTF-8, leads to no regular file, or can't be read,
/// gives none. A file's own path is the one without symbolic links.
#[derive(Drop)]
pub struct SystemFiles<R> {
    rt: R,
}

impl<R: Files + AllocGlobal> SystemFiles<R> {
    /// The files that a runtime opens, also a borrowed one.
    pub fn new(rt: R) -> Self {
        SystemFiles { rt }
    }
}

impl<R: Files + AllocGlobal> FilesByPath for SystemFiles<R> {
    ghost use Rattle.std.specs.Prelude.{◌≡◌, false, None, IfOk};
    ghost use Rattle.std.specs.Str.{is_utf8};

    ghost answers = { λ old path result new.
        is_utf8 path ≡ false → IfOk result (λ file. file ≡ None) };

    fn read(&mut self, path: &[u8]) -> Result<Option<NamedFile>, AllocError> {
        match str::from_utf8(path) {
            Ok(path) => if_there(read_regular_file(&self.rt, path)),
            Err(_) => Ok(None),
        }
    }
}

// What was read, if it can be read. The only refusal is out of memory.
fn if_there(read: io::Result<Option<NamedFile>>) -> Result<Option<NamedFile>, AllocError> {
    match read {
        Ok(file) => Ok(file),
        Err(error) => match error.kind() {
            ErrorKind::OutOfMemory => Err(AllocError),
            _ => Ok(None),
        },
    }
}

// The file that a path leads to, if it is a regular file: a device or a pipe may never end.
fn read_regular_file<R: Files + AllocGlobal>(rt: &R, path: &str) -> io::Result<Option<NamedFile>> {
    let path = fs::canonicalize(rt, path)?;
    let metadata = fs::metadata(rt, path.as_path())?;
    if !metadata.is_file() {
        return Ok(None);
    }
    let bytes = read_bytes(rt, &path)?;
    let path = Bytes::from_string(path.into_string())?;
    Ok(Some(NamedFile { path, bytes }))
}

// The bytes of a file, read once into one buffer of its size.
fn read_bytes<R: Files + AllocGlobal>(rt: &R, path: &PathBuf) -> io::Result<Bytes> {
    let mut file = File::open(rt, path.as_path())?;
    let mut bytes = Vec::with_capacity(rt.alloc(), room_for(&file))?;
    file.read_to_end(&mut bytes)?;
    Ok(Bytes::from_vec(bytes)?)
}

// Room for a file, and for one byte more, so that the read that finds its end needs no other.
fn room_for<F: OpenFile>(file: &F) -> usize {
    match file.metadata() {
        Ok(metadata) => (metadata.len() as usize).saturating_add(1),
        Err(_) => 0,
    }
}
