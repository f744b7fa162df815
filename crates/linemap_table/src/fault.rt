//! Why a part of a table could not be read from JSON.

use json::Invalid;
use std::alloc::AllocError;

/// Why a part of a table could not be read.
#[derive(Clone, Copy, PartialEq, Eq, Debug)]
pub enum Fault {
    /// Out of memory.
    Memory,
    /// The value doesn't have the shape of the part.
    Shape,
}

impl From<AllocError> for Fault {
    ghost use Rattle.std.specs.Prelude.{◌≡◌};
    ghost use Rattle.linemap_table.specs.declared.fault.Fault.TheVariants.{Memory};

    ghost from_gives = { λ e r. r ≡ Memory };

    fn from(_error: AllocError) -> Fault {
        Fault::Memory
    }
}

impl From<Invalid> for Fault {
    ghost use Rattle.std.specs.Prelude.{◌≡◌};
    ghost use Rattle.linemap_table.specs.declared.fault.Fault.TheVariants.{Shape};

    ghost from_gives = { λ e r. r ≡ Shape };

    fn from(_error: Invalid) -> Fault {
        Fault::Shape
    }
}
