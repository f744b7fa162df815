//! What an image says of the files with its debugging information.

ghost use Rattle.std.specs.Prelude.{◌≡◌, IfOk};
ghost use Rattle.gimli_core_readers.specs.Calls.{ReturnsAs};
ghost use Rattle.gimli_core_readers.specs.Parsers.{null_terminated, value_of};
ghost use Rattle.addr2line_elf.specs.ElfImages.{section_named};
ghost use Rattle.addr2line_debug_files.specs.DebugLinks.{build_id, build_id_in, debug_link, debug_link_in, debug_link_fields, supplement_link, supplement_link_in, supplement_link_fields, has_bytes, has_debug_info};

use crate::notes::{first_build_id, padding};
use crate::readable::readable_section;
use addr2line_elf::{Elf, LoadError};
use bytes::Bytes;
use gimli_core_readers::{EndianSlice, Error, Reader, RunTimeEndian, borrowed};
use std::alloc::{AllocError, Global};

/// What a program says of its debug file in the section `.gnu_debuglink`.
#[derive(Debug, Drop)]
pub struct DebugLink {
    /// The name of the file; where its folder is, isn't said.
    pub name: Bytes,
    /// The CRC-32 of the file.
    pub crc: u32,
}

/// What a file says of its supplement in the section `.gnu_debugaltlink`.
#[derive(Debug, Drop)]
pub struct SupplementLink {
    /// The path of the supplement, from the root or from the folder of the file that says it.
    pub name: Bytes,
    /// The build identifier of the supplement.
    pub build_id: Bytes,
}

/// The build identifier of an image: the descriptor of the first GNU note of type NT_GNU_BUILD_ID
/// in the section `.note.gnu.build-id`, unless it is empty. Takes memory for a copy of it. It looks
/// at each section, and at the notes up to that one.
pub fn build_id(alloc: Global, elf: &Elf) -> Result<Option<Bytes>, AllocError>
    ensures { IfOk result (λ id. id ≡ build_id elf.now) }
{
    match readable_section(elf, ".note.gnu.build-id")? {
        Some(section) => build_id_in(alloc, borrowed(&section)),
        None => Ok(None),
    }
}

// The build identifier in a section of notes.
fn build_id_in(
    alloc: Global,
    section: EndianSlice<'_, RunTimeEndian>,
) -> Result<Option<Bytes>, AllocError>
    ensures { IfOk result (λ id. id ≡ build_id_in section.entry) }
{
    match first_build_id(section) {
        Some(descriptor) if !descriptor.is_empty() => {
            Ok(Some(Bytes::copy_from_slice(alloc, descriptor.slice())?))
        }
        _ => Ok(None),
    }
}

/// What a program says of its debug file, if the section is there and well formed, and the name
/// isn't empty. Takes memory for a copy of the name. It looks at each section.
pub fn debug_link(alloc: Global, elf: &Elf) -> Result<Option<DebugLink>, AllocError>
    ensures { IfOk result (λ link. link ≡ debug_link elf.now) }
{
    match readable_section(elf, ".gnu_debuglink")? {
        Some(section) => debug_link_in(alloc, borrowed(&section)),
        None => Ok(None),
    }
}

fn debug_link_in(
    alloc: Global,
    mut section: EndianSlice<'_, RunTimeEndian>,
) -> Result<Option<DebugLink>, AllocError>
    ensures { IfOk result (λ link. link ≡ debug_link_in section.entry) }
{
    match read_debug_link(&mut section) {
        Ok((name, crc)) if !name.is_empty() => {
            let name = Bytes::copy_from_slice(alloc, name.slice())?;
            Ok(Some(DebugLink { name, crc }))
        }
        _ => Ok(None),
    }
}

// The name of a debug file and its CRC-32.
#[tactic(auto, unfolding(crate::specs::DebugLinks::debug_link_fields))]
fn read_debug_link<'a>(
    section: &mut EndianSlice<'a, RunTimeEndian>,
) -> Result<(EndianSlice<'a, RunTimeEndian>, u32), Error>
    ensures { ReturnsAs (λ link. record { name = link.0.bytes; crc = link.1 }) result
        (value_of (debug_link_fields section.old)) }
{
    let name = text(section)?;
    section.skip(padding(name.slice().len() + 1))?;
    let crc = section.read_u32()?;
    Ok((name, crc))
}

// The next text that ends in zero, lent.
fn text<'a>(
    section: &mut EndianSlice<'a, RunTimeEndian>,
) -> Result<EndianSlice<'a, RunTimeEndian>, Error>
    ensures { ReturnsAs (λ text. (text, section.new)) result (null_terminated section.old) }
{
    section.read_null_terminated_slice()
}

/// What a file says of its supplement, if the section is there and well formed, and neither the
/// path nor the identifier is empty. Takes memory for a copy of both. It looks at each section.
pub fn supplement_link(alloc: Global, elf: &Elf) -> Result<Option<SupplementLink>, AllocError>
    ensures { IfOk result (λ link. link ≡ supplement_link elf.now) }
{
    match readable_section(elf, ".gnu_debugaltlink")? {
        Some(section) => supplement_link_in(alloc, borrowed(&section)),
        None => Ok(None),
    }
}

fn supplement_link_in(
    alloc: Global,
    section: EndianSlice<'_, RunTimeEndian>,
) -> Result<Option<SupplementLink>, AllocError>
    ensures { IfOk result (λ link. link ≡ supplement_link_in section.entry) }
{
    match read_supplement_link(section) {
        Ok((name, id)) if !name.is_empty() && !id.is_empty() => {
            let name = Bytes::copy_from_slice(alloc, name.slice())?;
            let build_id = Bytes::copy_from_slice(alloc, id.slice())?;
            Ok(Some(SupplementLink { name, build_id }))
        }
        _ => Ok(None),
    }
}

// The path of a supplement and its build identifier.
#[tactic(auto, unfolding(crate::specs::DebugLinks::supplement_link_fields))]
fn read_supplement_link<'a>(
    mut section: EndianSlice<'a, RunTimeEndian>,
) -> Result<
    (
        EndianSlice<'a, RunTimeEndian>,
        EndianSlice<'a, RunTimeEndian>,
    ),
    Error,
>
    ensures { ReturnsAs (λ link. record { name = link.0.bytes; build_id = link.1.bytes }) result
        (value_of (supplement_link_fields section.entry)) }
{
    let name = text(&mut section)?;
    Ok((name, section))
}

/// Whether an image has debugging information of its own: a section `.debug_info`, or
/// `.zdebug_info`, that isn't empty, compressed or not. One that can't be read counts too, so that
/// whoever loads the image gets its refusal. It looks at each section.
pub fn has_debug_info(elf: &Elf) -> Result<bool, AllocError>
    ensures { IfOk result (λ has. has ≡ has_debug_info elf.now) }
{
    Ok(has_bytes(elf, ".debug_info")? || has_bytes(elf, ".zdebug_info")?)
}

// Whether the section of a name is there with bytes, or can't be read.
fn has_bytes(elf: &Elf, name: &str) -> Result<bool, AllocError>
    ensures { IfOk result (λ has. has ≡ has_bytes (section_named name.now elf.now)) }
{
    match elf.section(name) {
        Ok(section) => Ok(!section.is_empty()),
        Err(LoadError::Memory) => Err(AllocError),
        Err(_) => Ok(true),
    }
}
