//! The first bytes of an ELF file, its identification.

ghost use Rattle.std.specs.Prelude.{◌≡◌, ◌≢◌, ◌<◌, ◌≤◌, IfOk, IfErr, Err};
ghost use Rattle.gimli_core_readers.specs.ByteOrders.{is_big_endian};
ghost use Rattle.gimli_core_readers.specs.Calls.{ReturnsAs, Returns};
ghost use Rattle.addr2line_elf.specs.ImageLoading.{LoadsAsOrNoMemory};
ghost use Rattle.addr2line_elf.specs.declared.error.LoadError.TheVariants.{Memory};
ghost use Rattle.addr2line_elf.specs.ElfImages.{class_of, is_big_of, identification};
ghost use Rattle.addr2line_elf.specs.LoadedParts.{head_size};

use crate::class::Class;
use crate::constants::{
    EI_CLASS, EI_DATA, EI_NIDENT, ELFCLASS32, ELFCLASS64, ELFDATA2LSB, ELFDATA2MSB,
};
use crate::error::LoadError;
use crate::file_parts::FileParts;
use gimli_core_readers::RunTimeEndian;

// What an ELF file begins with.
const MAGIC: [u8; 4] = [0x7f, b'E', b'L', b'F'];

// The same of a file of which parts are in memory.
pub(crate) fn identify_file(file: &FileParts) -> Result<(Class, RunTimeEndian), LoadError>
    ensures { LoadsAsOrNoMemory (λ id. record { class = id.0; is_big = is_big_endian id.1 }) result
        (identification file.now.bytes) }
{
    let head = head_of(file)?;
    identify(head)
}

// The first bytes of a file, which say what the file is, or all that there are.
fn head_of(file: &FileParts) -> Result<&[u8], LoadError>
    ensures same { IfOk result (λ head. identification head.now ≡ identification file.now.bytes) }
    ensures refusal { IfErr result (λ e. e ≢ Memory
        → identification file.now.bytes ≡ Err e) }
{
    file.slice(0, head_size(file.len()))
}

// How many bytes of a file of a length are looked at.
pub(crate) fn head_size(len: u64) -> u64
    ensures value { result ≡ head_size len }
    ensures within { result ≤ len }
    ensures enough { result < 6 → len ≤ result }
{
    if len < EI_NIDENT { len } else { EI_NIDENT }
}

// The class of an ELF file and the order of its bytes (System V ABI, "ELF Identification").
fn identify(file: &[u8]) -> Result<(Class, RunTimeEndian), LoadError>
    ensures { ReturnsAs (λ id. record { class = id.0; is_big = is_big_endian id.1 }) result
        (identification file.now) }
{
    if !file.starts_with(&MAGIC) {
        return Err(LoadError::NotElf);
    }
    let class = class_of(file.get(EI_CLASS).copied())?;
    let endian = endian_of(file.get(EI_DATA).copied())?;
    Ok((class, endian))
}

// The class that a byte means.
fn class_of(byte: Option<u8>) -> Result<Class, LoadError>
    ensures { Returns result (class_of byte) }
{
    match byte {
        Some(ELFCLASS32) => Ok(Class::Elf32),
        Some(ELFCLASS64) => Ok(Class::Elf64),
        _ => Err(LoadError::UnsupportedElf),
    }
}

// The order that a byte means.
fn endian_of(byte: Option<u8>) -> Result<RunTimeEndian, LoadError>
    ensures { ReturnsAs is_big_endian result (is_big_of byte) }
{
    match byte {
        Some(ELFDATA2LSB) => Ok(RunTimeEndian::Little),
        Some(ELFDATA2MSB) => Ok(RunTimeEndian::Big),
        _ => Err(LoadError::UnsupportedElf),
    }
}
