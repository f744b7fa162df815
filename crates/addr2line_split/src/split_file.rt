//! What a load gets of the bytes of a split file.

ghost use Rattle.std.specs.Prelude.{◌≡◌, ◌≢◌, Result, Option, Ok, Err, Some, None, IfOk, IfErr, option_map};
ghost use Rattle.addr2line_unit.specs.Calls.{ReturnsAsOrNoMemory, ReturnsOrNoMemory};
ghost use Rattle.addr2line_unit.specs.Error.{Error};
ghost use Rattle.addr2line_unit.specs.Error.TheVariants.{Memory};
ghost use Rattle.addr2line_unit.specs.DwarfFiles.{DwarfFile};
ghost use Rattle.addr2line_unit.specs.Results.{and_then};
ghost use Rattle.gimli_dwarf_spec.specs.Splitting.{split_from};
ghost use Rattle.addr2line_elf.specs.ImageLoading.{LoadsAsOrNoMemory};
ghost use Rattle.addr2line_split.specs.FileReads.{if_readable};
ghost use Rattle.addr2line_split.specs.SplitLoading.{sections_in, dwo_id_of, first_dwo_id, is_id, if_of_load, file_for, directory_bytes, GetsFile};

use crate::ImageReader;
use crate::file_reads::if_readable;
use crate::sections::dwo_sections;
use crate::source::SplitSource;
use addr2line_elf::{Elf, LoadError};
use addr2line_unit::first_answer::first_header;
use addr2line_unit::{Dwarf, DwoId, Error, Reader, SplitDwarfLoad, UnitHeader};
use bytes::Bytes;
use std::alloc::Global;
use std::rc::Rc;

/// The split file that a load asks for, as a source gives it: an ELF file whose first unit has the
/// load's identifier by what the file itself says, and then with what only the main file has. None
/// where the load has no name, where the source has no such file, and where its bytes can't be read
/// or are another unit's. The only refusal is out of memory, also of the source; a load without a
/// name takes none.
pub fn load_split<S: SplitSource>(
    alloc: Global,
    load: &SplitDwarfLoad<ImageReader>,
    source: &mut S,
) -> Result<Option<Rc<Dwarf<ImageReader>>>, Error>
    ensures file { (file : Result (Option DwarfFile) Error)
        × GetsFile S.answers load.now source.old file source.new
        × ReturnsAsOrNoMemory (option_map (λ d. d.value.file)) result file }
    ensures memory { IfErr result (λ e. e ≡ Memory) }
    ensures free { load.now.path ≡ None → result ≢ Err Memory }
{
    match &load.path {
        Some(name) => {
            let answer = source.get(directory_bytes(&load.comp_dir), name.as_bytes());
            file_of_answer(alloc, load, answer)
        }
        None => Ok(None),
    }
}

// The bytes of a directory; none where there is no directory.
fn directory_bytes(directory: &Option<ImageReader>) -> &[u8]
    ensures { result.now ≡ directory_bytes directory.now }
{
    match directory {
        Some(directory) => directory.as_bytes(),
        None => &[],
    }
}

// The split file of a load, if a source's answer is one.
fn file_of_answer(
    alloc: Global,
    load: &SplitDwarfLoad<ImageReader>,
    answer: Result<Option<Bytes>, Error>,
) -> Result<Option<Rc<Dwarf<ImageReader>>>, Error>
    requires { IfErr answer (λ e. e ≡ Memory) }
    ensures file { ReturnsAsOrNoMemory (option_map (λ d. d.value.file)) result
        (and_then answer (λ bytes. Ok (file_for load.now bytes))) }
    ensures memory { IfErr result (λ e. e ≡ Memory) }
{
    match answer? {
        Some(bytes) => file_for(alloc, load, bytes),
        None => Ok(None),
    }
}

// The split file of a load, if these bytes are one.
fn file_for(
    alloc: Global,
    load: &SplitDwarfLoad<ImageReader>,
    bytes: Bytes,
) -> Result<Option<Rc<Dwarf<ImageReader>>>, Error>
    ensures file { ReturnsAsOrNoMemory (option_map (λ d. d.value.file)) result
        (Ok (file_for load.now (Some bytes))) }
    ensures memory { IfErr result (λ e. e ≡ Memory) }
{
    match if_readable(sections_in(alloc, bytes))? {
        Some(dwarf) => if_of_load(alloc, load, dwarf),
        None => Ok(None),
    }
}

// The sections of a split file that some bytes are.
fn sections_in(alloc: Global, bytes: Bytes) -> Result<Dwarf<ImageReader>, LoadError>
    ensures { LoadsAsOrNoMemory (λ dwarf. dwarf.file) result (sections_in bytes) }
{
    let elf = Elf::parse(alloc, bytes)?;
    dwo_sections(alloc, &elf)
}

// A file, shared, with what only the main file has, if its first unit has the load's identifier.
fn if_of_load<R: Reader>(
    alloc: Global,
    load: &SplitDwarfLoad<R>,
    dwarf: Dwarf<R>,
) -> Result<Option<Rc<Dwarf<R>>>, Error>
    ensures file { ReturnsAsOrNoMemory (option_map (λ d. d.value.file)) result
        (Ok (if_of_load load.now dwarf.file)) }
    ensures memory { IfErr result (λ e. e ≡ Memory) }
{
    if !has_dwo_id(alloc, &dwarf, load.dwo_id)? {
        return Ok(None);
    }
    Ok(Some(shared_dwo(alloc, load.parent.as_ref(), dwarf)?))
}

// A file as a split file of a main file, shared.
fn shared_dwo<R: Reader>(
    alloc: Global,
    parent: &Dwarf<R>,
    mut dwarf: Dwarf<R>,
) -> Result<Rc<Dwarf<R>>, Error>
    ensures file { IfOk result (λ dwo. dwo.value.file ≡ split_from parent.now.file dwarf.file) }
    ensures memory { IfErr result (λ e. e ≡ Memory) }
{
    dwarf.make_dwo(parent)?;
    match Rc::new(alloc, dwarf) {
        Ok(dwo) => Ok(dwo),
        Err(_) => Err(Error::Memory),
    }
}

// Whether a file's first unit can be read and has this identifier.
fn has_dwo_id<R: Reader>(alloc: Global, dwarf: &Dwarf<R>, id: DwoId) -> Result<bool, Error>
    ensures value { ReturnsOrNoMemory result (Ok (is_id id.0 (first_dwo_id dwarf.now.file))) }
    ensures memory { IfErr result (λ e. e ≡ Memory) }
{
    match first_dwo_id(alloc, dwarf) {
        Ok(found) => Ok(found == Some(id)),
        Err(Error::Memory) => Err(Error::Memory),
        Err(_) => Ok(false),
    }
}

// The identifier of a file's first unit, if it has both.
fn first_dwo_id<R: Reader>(alloc: Global, dwarf: &Dwarf<R>) -> Result<Option<DwoId>, Error>
    ensures { ReturnsAsOrNoMemory (option_map (λ id. id.0)) result
        (first_dwo_id dwarf.now.file) }
{
    match first_header(dwarf)? {
        Some(header) => dwo_id_of(alloc, dwarf, header),
        None => Ok(None),
    }
}

// The identifier of a unit, if it has one.
fn dwo_id_of<R: Reader>(
    alloc: Global,
    dwarf: &Dwarf<R>,
    header: UnitHeader<R>,
) -> Result<Option<DwoId>, Error>
    ensures { ReturnsAsOrNoMemory (option_map (λ id. id.0)) result
        (dwo_id_of dwarf.now.file (Some header)) }
{
    let unit = dwarf.unit(alloc, header)?;
    Ok(unit.dwo_id)
}
