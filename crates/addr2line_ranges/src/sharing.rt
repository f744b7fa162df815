//! Values that several owners share.

ghost use Rattle.std.specs.Prelude.{Ok};
ghost use Rattle.gimli_lines_rows.specs.Calls.{ReturnsAsOrNoMemory};

use gimli_lines_rows::Error;
use std::rc::Rc;

/// The same value, shared once more.
pub fn share<T: Drop>(value: &Rc<T>) -> Result<Rc<T>, Error>
    ensures { ReturnsAsOrNoMemory (λ s. s.value) result (Ok value.now.value) }
{
    Ok(value.clone()?)
}
