//! What can be read of an image.

ghost use Rattle.std.specs.Prelude.{◌≡◌, IfOk};
ghost use Rattle.addr2line_debug_files.specs.DebugLinks.{readable_section, if_readable};

use addr2line_elf::{Elf, LoadError};
use gimli_core_readers::{EndianBytes, RunTimeEndian};
use std::alloc::AllocError;

// What was loaded, if it can be read. The only refusal is out of memory.
pub(crate) fn if_readable<T>(load: Result<T, LoadError>) -> Result<Option<T>, AllocError>
    ensures { result ≡ if_readable load }
{
    match load {
        Ok(value) => Ok(Some(value)),
        Err(LoadError::Memory) => Err(AllocError),
        Err(_) => Ok(None),
    }
}

// The bytes of the section of a name, if it can be read.
pub(crate) fn readable_section(
    elf: &Elf,
    name: &str,
) -> Result<Option<EndianBytes<RunTimeEndian>>, AllocError>
    ensures { IfOk result (λ section. section ≡ readable_section name.now elf.now) }
{
    if_readable(elf.section(name))
}
