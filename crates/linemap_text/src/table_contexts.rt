//! The context over a table's sections.

ghost use Rattle.std.specs.Prelude.{◌≡◌, Ok, IsOk, IfOk};
ghost use Rattle.addr2line_context.specs.Contexts.{context};

use addr2line_context::{Context, Dwarf, Error, Reader};
use std::alloc::{AllocError, Global};

/// The context over sections that have one. Refused only when out of memory.
pub fn context_of<R: Reader>(alloc: Global, dwarf: Dwarf<R>) -> Result<Context<R>, AllocError>
    requires { IsOk (context dwarf.file) }
    ensures { IfOk result (λ c. context dwarf.file ≡ Ok c.value.plain.context) }
{
    match Context::from_dwarf(alloc, dwarf) {
        Ok(context) => Ok(context),
        Err(Error::Memory) => Err(AllocError),
        Err(_) => unreachable!(),
    }
}
