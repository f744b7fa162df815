//! Loaders of files of the file system.

ghost use Rattle.std.specs.Prelude.{false};
ghost use Rattle.std.specs.Option.{is_some};
ghost use Rattle.addr2line_split.specs.FileReads.{AreRead, IsRead};
ghost use Rattle.addr2line_loader.specs.FileLoads.{IsReadIfAny, LoadsFiles};

use crate::loader::Loader;
use addr2line_split::{FileParts, LoadError, read_file, read_parts};
use bytes::Bytes;
use std::path::AsPath;
use std::rt::Files;

impl Loader {
    /// Reads a file, and loads it. Only its headers, the sections that lookups read, its symbols
    /// and their names are read, each once into a buffer of its size, which the loader keeps. All
    /// bytes are read where these parts overlap or can't be found, and of what is no regular file.
    pub fn new<R: Files + AllocGlobal, P: AsPath>(rt: &R, path: P) -> Result<Loader, LoadError>
        ensures { LoadsFiles false result }
    {
        let image = read_parts(rt, path)?;
        Loader::from_parts(rt.alloc(), image, None)
    }

    /// Reads a file and its supplement, if there is one, and loads both.
    pub fn new_with_sup<R: Files + AllocGlobal, P: AsPath, Q: AsPath>(
        rt: &R,
        path: P,
        sup_path: Option<Q>,
    ) -> Result<Loader, LoadError>
        ensures { LoadsFiles (is_some sup_path) result }
    {
        let image = read_parts(rt, path)?;
        let supplement = read_parts_if_any(rt, sup_path)?;
        Loader::from_parts(rt.alloc(), image, supplement)
    }
}

// The parts of a file, if there is one.
fn read_parts_if_any<R: Files + AllocGlobal, P: AsPath>(
    rt: &R,
    path: Option<P>,
) -> Result<Option<FileParts>, LoadError>
    ensures { IsReadIfAny AreRead (is_some path) result }
{
    match path {
        Some(path) => Ok(Some(read_parts(rt, path)?)),
        None => Ok(None),
    }
}

// The bytes of a file, if there is one.
pub(crate) fn read_if_any<R: Files + AllocGlobal, P: AsPath>(
    rt: &R,
    path: Option<P>,
) -> Result<Option<Bytes>, LoadError>
    ensures { IsReadIfAny IsRead (is_some path) result }
{
    match path {
        Some(path) => Ok(Some(read_file(rt, path)?)),
        None => Ok(None),
    }
}
