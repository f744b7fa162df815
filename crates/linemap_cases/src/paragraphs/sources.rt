//! Sources of split files.

use super::image_case::{ImageCase, NamedFile};
use addr2line_context::Error;
use addr2line_split::{LoadError, MapSource, SplitFile, SplitSource};
use bytes::Bytes;
use std::alloc::{AllocError, Global};
use std::fs;
use std::rt::Files;

/// The bytes of a file. Memory may be short for it once.
pub fn read<R: Files + AllocGlobal>(rt: &R, path: &str) -> Result<Vec<u8>, LoadError> {
    match fs::read(rt, path) {
        Ok(bytes) => Ok(bytes),
        Err(_) => match fs::read(rt, path) {
            Ok(bytes) => Ok(bytes),
            Err(_) => Err(LoadError::Io),
        },
    }
}

/// The split files in memory.
pub fn map_of<R: Files + AllocGlobal>(rt: &R, case: &ImageCase) -> Result<MapSource, LoadError> {
    let mut source = MapSource::new(rt.alloc());
    for file in case.split_files.iter() {
        let bytes = read(rt, &file.path)?;
        source.add(split_file(rt.alloc(), file, bytes)?)?;
    }
    Ok(source)
}

fn split_file(alloc: Global, file: &NamedFile, bytes: Vec<u8>) -> Result<SplitFile, LoadError> {
    Ok(SplitFile {
        directory: copy_of(alloc, &file.directory)?,
        name: copy_of(alloc, &file.name)?,
        bytes: Bytes::from_vec(bytes)?,
    })
}

fn copy_of(alloc: Global, text: &str) -> Result<Bytes, AllocError> {
    Bytes::copy_from_slice(alloc, text.as_bytes())
}

// An answer to a load.
#[derive(Drop)]
enum Turn {
    Memory,
    File(Bytes),
}

/// A source that gives answers in turn, and then none.
#[derive(Drop)]
pub struct Turns {
    turns: Vec<Turn>,
    // How many it gave.
    count: usize,
}

/// The answers in turn.
pub fn turns_of<R: Files + AllocGlobal>(rt: &R, case: &ImageCase) -> Result<Turns, LoadError> {
    let mut turns = Vec::new(rt.alloc());
    for path in case.turns.iter() {
        turns.push(turn_of(rt, path)?)?;
    }
    Ok(Turns { turns, count: 0 })
}

fn turn_of<R: Files + AllocGlobal>(rt: &R, path: &str) -> Result<Turn, LoadError> {
    if path == "memory" {
        return Ok(Turn::Memory);
    }
    Ok(Turn::File(Bytes::from_vec(read(rt, path)?)?))
}

impl SplitSource for Turns {
    ghost answers = { λ old directory name result new. Unit {0} };

    fn get(&mut self, _directory: &[u8], _name: &[u8]) -> Result<Option<Bytes>, Error> {
        let answer = match self.turns.get(self.count) {
            Some(Turn::File(bytes)) => Some(bytes.clone()?),
            Some(Turn::Memory) => {
                self.count = self.count.saturating_add(1);
                return Err(Error::Memory);
            }
            None => None,
        };
        self.count = self.count.saturating_add(1);
        Ok(answer)
    }
}
