//! Bare units, made whole.

ghost use Rattle.std.specs.Prelude.{◌≡◌, OnOk, OnErr, IfErr};
ghost use Rattle.gimli_dwarf_spec.specs.Calls.{ReturnsAsOrNoMemory};
ghost use Rattle.gimli_dwarf_spec.specs.Error.TheVariants.{Memory};
ghost use Rattle.gimli_dwarf.specs.WholeUnits.{IsBareIn, whole_facts, with_parts};

use crate::dwarf::Dwarf;
use crate::root::{RootAttributes, read_root};
use crate::unit::Unit;
use gimli_dwarf_spec::{DebuggingInformationEntry, Error, Reader};
use std::alloc::Global;

impl<R: Reader> Unit<R> {
    /// Reads again what a bare unit lacks: the declarations of its entries, and the header of its
    /// line number program. Both were checked before, so the only refusal is out of memory, and the
    /// unit is still bare then.
    pub fn make_whole(&mut self, alloc: Global, dwarf: &Dwarf<R>) -> Result<(), Error>
        requires { IsBareIn dwarf.now.file self.old }
        ensures ok { OnOk result (self.new ≡ whole_facts dwarf.now.file self.old) }
        ensures err { OnErr result (self.new ≡ self.old) }
        ensures refusal { IfErr result (λ e. e ≡ Memory) }
    {
        match self.read_parts(alloc, dwarf) {
            Ok(()) => Ok(()),
            Err(_) => Err(Error::Memory),
        }
    }

    // Reads its declarations, and the header of the program that its root names.
    fn read_parts(&mut self, alloc: Global, dwarf: &Dwarf<R>) -> Result<(), Error>
        ensures ok { ReturnsAsOrNoMemory (λ _. self.new) result
            (with_parts dwarf.now.file self.old) }
        ensures err { OnErr result (self.new ≡ self.old) }
    {
        let abbreviations = dwarf.abbreviations(alloc, self.header.debug_abbrev_offset())?;
        let mut root = DebuggingInformationEntry::null(alloc);
        read_root(&self.header, &abbreviations, &mut root)?;
        let found = RootAttributes::read(root.attrs())?;
        let line_program = self.line_header(alloc, dwarf, found.line)?;
        self.abbreviations = abbreviations;
        self.line_program = line_program;
        Ok(())
    }
}
