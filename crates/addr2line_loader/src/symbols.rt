//! The symbols of another file, for one that has none of its own.

ghost use Rattle.std.specs.Prelude.{◌≡◌, OnErr};
ghost use Rattle.addr2line_split.specs.ImageLoading.{LoadsAsOrNoMemory, LoadsOrNoMemory};
ghost use Rattle.addr2line_loader.specs.SymbolFiles.{symbols_in, with_symbols_of};

use crate::loader::Loader;
use addr2line_context::Reader;
use addr2line_split::{Elf, LoadError, Symbols};
use bytes::Bytes;
use std::alloc::Global;

// The section of all symbols (System V ABI, "Special Sections").
const SYMTAB: &str = ".symtab";

impl Loader {
    /// Takes the symbols of another file, as those of the program whose debug file this is, unless
    /// this one's section `.symtab` has bytes. Then the other isn't looked at; else memory is taken
    /// for its symbols. A refusal leaves the loader as it was.
    pub fn add_symbols_of(&mut self, alloc: Global, image: Bytes) -> Result<(), LoadError>
        ensures file { LoadsAsOrNoMemory (λ done. self.new.file) result
            (with_symbols_of image self.old.file) }
        ensures units { self.new.units ≡ self.old.units }
        ensures unchanged { OnErr result (self.new ≡ self.old) }
    {
        if self.elf.section(SYMTAB)?.is_empty() {
            self.symbols = symbols_in(alloc, image)?;
        }
        Ok(())
    }
}

// The symbols of a file.
fn symbols_in(alloc: Global, image: Bytes) -> Result<Symbols, LoadError>
    ensures { LoadsOrNoMemory result (symbols_in image) }
{
    let elf = Elf::parse(alloc, image)?;
    elf.symbols(alloc)
}
