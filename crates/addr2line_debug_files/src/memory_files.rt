//! Files that are in memory.

ghost use Rattle.std.specs.Prelude.{◌≡◌, [], ◌∷◌, ◌++◌, nat_eq, OnOk, OnErr, option_map};
ghost use Rattle.std.specs.List.{find};
ghost use Rattle.std.specs.Cmp.Lexicographic.{pointwise};

use crate::files::{FilesByPath, NamedFile};
use std::alloc::{AllocError, Global};
use std::marker::Model;

/// Files that are in memory. A path is looked up in them one after the other; the first of equal
/// paths counts.
#[derive(Drop)]
pub struct MemoryFiles {
    files: Vec<NamedFile>,
}

impl Model for MemoryFiles {
    ghost use Rattle.std.specs.Prelude.{List};
    ghost use Rattle.addr2line_debug_files.specs.declared.files.NamedFile.{NamedFile};

    ghost Value = { List NamedFile };

    ghost view = { λ m. m.files.items };
}

impl MemoryFiles {
    /// No files.
    pub fn new(alloc: Global) -> Self
        ensures { result ≡ [] }
    {
        MemoryFiles {
            files: Vec::new(alloc),
        }
    }

    /// Adds a file, after the others. It shares the bytes; the list takes memory.
    pub fn add(&mut self, file: NamedFile) -> Result<(), AllocError>
        ensures added { OnOk result (self.new ≡ self.old ++ file ∷ []) }
        ensures unchanged { OnErr result (self.new ≡ self.old) }
    {
        self.files.push(file)?;
        Ok(())
    }
}

impl FilesByPath for MemoryFiles {
    ghost use Rattle.std.specs.Prelude.{◌≡◌, nat_eq, IfOk};
    ghost use Rattle.std.specs.List.{find};
    ghost use Rattle.std.specs.Cmp.Lexicographic.{pointwise};

    ghost answers = { λ old path result new. (new ≡ old)
        × IfOk result (λ file. file ≡ find (λ f. pointwise nat_eq f.path path) old) };

    fn read(&mut self, path: &[u8]) -> Result<Option<NamedFile>, AllocError> {
        match file_at(&self.files, path) {
            Some(file) => Ok(Some(file.clone()?)),
            None => Ok(None),
        }
    }
}

// The first file of a path.
fn file_at<'a>(files: &'a [NamedFile], path: &[u8]) -> Option<&'a NamedFile>
    ensures { option_map (λ f. f.now) result
        ≡ find (λ f. pointwise nat_eq f.path path.now) files.now }
{
    files.iter().find(|file| file.path.as_slice() == path)
}
