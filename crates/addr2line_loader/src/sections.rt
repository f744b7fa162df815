//! The sections of an ELF file as those of a main file, with a supplement's.

ghost use Rattle.std.specs.Prelude.{◌≡◌, Ok};
ghost use Rattle.addr2line_context.specs.Results.{and_then};
ghost use Rattle.addr2line_split.specs.ElfDebugSections.{main_section};
ghost use Rattle.addr2line_split.specs.FileParts.{bytes_if_any};
ghost use Rattle.addr2line_split.specs.ImageFiles.{main_file};
ghost use Rattle.addr2line_split.specs.ImageLoading.{LoadsAsOrNoMemory, LoadsOrNoMemory};
ghost use Rattle.addr2line_split.specs.SectionLoading.{with_supplement};
ghost use Rattle.addr2line_loader.specs.LoadedFiles.{with_supplement_in, with_supplement_if_any};

use addr2line_context::{Dwarf, SectionId};
use addr2line_split::{Elf, FileParts, ImageReader, LoadError};
use std::alloc::Global;

// The sections of an ELF file as those of a main file. It shares the file's bytes.
pub(crate) fn main_sections(alloc: Global, elf: &Elf) -> Result<Dwarf<ImageReader>, LoadError>
    ensures { LoadsAsOrNoMemory (λ dwarf. dwarf.file) result (main_file elf.now) }
{
    Dwarf::load(
        alloc,
        |id: SectionId| -> Result<ImageReader, LoadError>
            ensures { LoadsOrNoMemory result (main_section id elf.entry.now) }
        { elf.debug_section(id) },
    )
}

// Adds the sections of an ELF file to another file, as its supplement's, if there is one.
pub(crate) fn add_supplement(
    alloc: Global,
    dwarf: &mut Dwarf<ImageReader>,
    supplement: Option<FileParts>,
) -> Result<(), LoadError>
    ensures { LoadsAsOrNoMemory (λ done. dwarf.new.file) result
        (with_supplement_if_any (bytes_if_any supplement) dwarf.old.file) }
{
    match supplement {
        Some(parts) => add_supplement_in(alloc, dwarf, parts),
        None => Ok(()),
    }
}

// Adds the sections of an ELF file of which parts are in memory.
fn add_supplement_in(
    alloc: Global,
    dwarf: &mut Dwarf<ImageReader>,
    parts: FileParts,
) -> Result<(), LoadError>
    ensures { LoadsAsOrNoMemory (λ done. dwarf.new.file) result
        (with_supplement_in parts.bytes dwarf.old.file) }
{
    let elf = Elf::parse_parts(alloc, parts)?;
    add_sections(alloc, dwarf, &elf)
}

// Adds the sections of an ELF file.
fn add_sections(alloc: Global, dwarf: &mut Dwarf<ImageReader>, elf: &Elf) -> Result<(), LoadError>
    ensures { LoadsAsOrNoMemory (λ done. dwarf.new.file) result
        (and_then (main_file elf.now) (λ s. Ok (with_supplement s dwarf.old.file))) }
{
    dwarf.load_sup(
        alloc,
        |id: SectionId| -> Result<ImageReader, LoadError>
            ensures { LoadsOrNoMemory result (main_section id elf.entry.now) }
        { elf.debug_section(id) },
    )
}
