//! The sections of an ELF file as those of a split file.

ghost use Rattle.addr2line_elf.specs.ImageLoading.{LoadsAsOrNoMemory, LoadsOrNoMemory};
ghost use Rattle.addr2line_elf.specs.ElfDebugSections.{split_section};
ghost use Rattle.addr2line_split.specs.ImageFiles.{dwo_file};

use crate::ImageReader;
use addr2line_elf::{Elf, LoadError};
use addr2line_unit::{Dwarf, SectionId};
use std::alloc::Global;

/// The sections of an ELF file under the names that they have in a split file (DWARF 5, 7.3.2). It
/// shares the file's bytes.
pub fn dwo_sections(alloc: Global, elf: &Elf) -> Result<Dwarf<ImageReader>, LoadError>
    ensures { LoadsAsOrNoMemory (λ dwarf. dwarf.file) result (dwo_file elf.now) }
{
    Dwarf::load(
        alloc,
        |id: SectionId| -> Result<ImageReader, LoadError>
            ensures { LoadsOrNoMemory result (split_section id elf.entry.now) }
        { elf.dwo_section(id) },
    )
}
