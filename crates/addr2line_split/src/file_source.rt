//! Split files of the file system.

ghost use Rattle.std.specs.Prelude.{◌≡◌, IfOk, option_map};
ghost use Rattle.std.specs.Path.{path_buf_bytes};
ghost use Rattle.addr2line_split.specs.FileReads.{as_text, path_in};

use crate::file_reads::{FileSystem, if_readable, read_regular_file};
use crate::source::SplitSource;
use addr2line_unit::Error;
use bytes::Bytes;
use std::alloc::{AllocError, Global};
use std::marker::Model;
use std::path::{Path, PathBuf};
use std::str;

/// Split files of a file system. A file's path is its name joined to its directory, as `Path` joins
/// them, so that an absolute name is the path. A path that isn't UTF-8, leads to no regular file,
/// or can't be read, gives none.
#[derive(Drop)]
pub struct FileSource<R> {
    rt: R,
}

impl<R> Model for FileSource<R> {
    ghost Value = { R };

    ghost view = { λ s. s.rt };
}

impl<R: FileSystem + AllocGlobal> FileSource<R> {
    /// The files that a runtime opens, also a borrowed one.
    pub fn new(rt: R) -> Self
        ensures { result ≡ rt }
    {
        FileSource { rt }
    }
}

impl<R: FileSystem + AllocGlobal> SplitSource for FileSource<R> {
    ghost use Rattle.std.specs.Prelude.{◌≡◌};
    ghost use Rattle.addr2line_split.specs.FileReads.{GetsPath};

    ghost answers = { λ old directory name result new. (new ≡ old)
        × GetsPath (R.answers_kind old) (R.answers_bytes old) directory name result };

    fn get(&mut self, directory: &[u8], name: &[u8]) -> Result<Option<Bytes>, Error> {
        match path_in(self.rt.alloc(), directory, name)? {
            Some(path) => if_readable(read_regular_file(&self.rt, path.as_path())),
            None => Ok(None),
        }
    }
}

// The path of a name that counts from a directory, if both are texts.
fn path_in(alloc: Global, directory: &[u8], name: &[u8]) -> Result<Option<PathBuf>, AllocError>
    ensures { IfOk result (λ path. option_map path_buf_bytes path
        ≡ path_in directory.now name.now) }
{
    let Some(directory) = as_text(directory) else {
        return Ok(None);
    };
    let Some(name) = as_text(name) else {
        return Ok(None);
    };
    Ok(Some(Path::new(directory).join(alloc, name)?))
}

// The bytes as a text, if they are UTF-8.
#[tactic(auto, using(crate::proofs::Texts::text_yes, crate::proofs::Texts::text_no))]
fn as_text(bytes: &[u8]) -> Option<&str>
    ensures { option_map (λ text. text.now) result ≡ as_text bytes.now }
{
    match str::from_utf8(bytes) {
        Ok(text) => Some(text),
        Err(_) => None,
    }
}
