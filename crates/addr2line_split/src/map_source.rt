//! Split files that are in memory.

ghost use Rattle.std.specs.Prelude.{◌≡◌, [], ◌∷◌, ◌++◌, IfErr, OnOk, OnErr, Ok, option_map};
ghost use Rattle.std.specs.List.{find};
ghost use Rattle.addr2line_unit.specs.Calls.{ReturnsAsOrNoMemory};
ghost use Rattle.addr2line_unit.specs.Error.TheVariants.{Memory};
ghost use Rattle.addr2line_split.specs.NamedFiles.{is_named, bytes_named};

use crate::source::SplitSource;
use addr2line_unit::Error;
use bytes::Bytes;
use std::alloc::Global;
use std::marker::Model;

/// A split file's bytes, with the directory and the name that a unit's root says of it.
#[derive(Drop)]
pub struct SplitFile {
    pub directory: Bytes,
    pub name: Bytes,
    pub bytes: Bytes,
}

/// Split files that are in memory. A name is looked up in them one after the other; the first of
/// equal names counts.
#[derive(Drop)]
pub struct MapSource {
    files: Vec<SplitFile>,
}

impl Model for MapSource {
    ghost use Rattle.std.specs.Prelude.{List};
    ghost use Rattle.addr2line_split.specs.declared.map_source.SplitFile.{SplitFile};

    ghost Value = { List SplitFile };

    ghost view = { λ s. s.files.items };
}

impl MapSource {
    /// No files.
    pub fn new(alloc: Global) -> Self
        ensures { result ≡ [] }
    {
        MapSource {
            files: Vec::new(alloc),
        }
    }

    /// Adds a file, after the others. It shares the bytes; the list takes memory.
    pub fn add(&mut self, file: SplitFile) -> Result<(), Error>
        ensures added { OnOk result (self.new ≡ self.old ++ file ∷ []) }
        ensures unchanged { OnErr result (self.new ≡ self.old) }
        ensures memory { IfErr result (λ e. e ≡ Memory) }
    {
        self.files.push(file)?;
        Ok(())
    }
}

impl SplitSource for MapSource {
    ghost use Rattle.std.specs.Prelude.{◌≡◌, Ok};
    ghost use Rattle.addr2line_unit.specs.Calls.{ReturnsOrNoMemory};
    ghost use Rattle.addr2line_split.specs.NamedFiles.{bytes_named};

    ghost answers = { λ old directory name result new.
        (new ≡ old) × ReturnsOrNoMemory result (Ok (bytes_named directory name old)) };

    fn get(&mut self, directory: &[u8], name: &[u8]) -> Result<Option<Bytes>, Error> {
        match file_named(&self.files, directory, name) {
            Some(file) => Ok(Some(file.bytes.clone()?)),
            None => Ok(None),
        }
    }
}

// The first file of a directory and a name.
fn file_named<'a>(files: &'a [SplitFile], directory: &[u8], name: &[u8]) -> Option<&'a SplitFile>
    ensures { option_map (λ f. f.now) result ≡ find (is_named directory.now name.now) files.now }
{
    files.iter().find(|file| is_named(file, directory, name))
}

// Whether a file has this directory and this name.
fn is_named(file: &SplitFile, directory: &[u8], name: &[u8]) -> bool
    ensures { result ≡ is_named directory.now name.now file.now }
{
    file.directory.as_slice() == directory && file.name.as_slice() == name
}
