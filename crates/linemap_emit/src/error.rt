//! Why no sections are emitted of a table.

use std::error::Error;
use std::fmt;

/// Why no sections are emitted of a table. It prints as a letter and a number.
#[derive(Debug, Clone, Copy, PartialEq, Eq)]
pub enum EmitError {
    /// M1: out of memory.
    Memory,
    /// M2: the table's weight is 2^31 or more.
    TooLarge,
}

impl EmitError {
    ghost use Rattle.std.specs.Prelude.{◌≡◌};
    ghost use Rattle.linemap_emit.specs.EmitErrorCodes.{emit_error_code};

    /// The letter and number that are printed.
    pub fn code(self) -> &'static str
        ensures { result.now ≡ emit_error_code self }
    {
        match self {
            EmitError::Memory => "M1",
            EmitError::TooLarge => "M2",
        }
    }
}

impl fmt::Display for EmitError {
    ghost use Rattle.std.specs.Prelude.{Some};
    ghost use Rattle.linemap_emit.specs.EmitErrorCodes.{emit_error_code};

    ghost output = { λ e. Some (emit_error_code e) };

    fn fmt<W: fmt::Write>(&self, f: &mut fmt::Formatter<W>) -> fmt::Result {
        f.write_str(self.code())
    }
}

impl Error for EmitError {}
