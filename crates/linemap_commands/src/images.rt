//! The image of the table in a text.

ghost use Rattle.std.specs.Prelude.{◌≡◌, IfErr, IfOk, OnOk};
ghost use Rattle.std.specs.Io.KnownBytes.{Keeps};
ghost use Rattle.linemap_image.specs.EmissionTargets.{encoding_of, is_big_of};
ghost use Rattle.linemap_image.specs.TableInText.{table_in};
ghost use Rattle.linemap_commands.specs.Emission.{EndsRefused, IsImage, RefusesTable, Reports};

use linemap_image::{EmitError, Table, TableError, Target, emit};
use linemap_output::{
    Ended, emission_out_of_memory, fail, table_out_of_memory, table_refused, table_too_large,
};
use std::alloc::Global;
use std::io::Write;

// Why no image is made of a text.
#[derive(Clone, Copy, Debug)]
enum Refusal {
    // Out of memory, for the table.
    TableMemory,
    // The text is not a table.
    Table(TableError),
    // An address is too large for the target.
    DoesNotFit,
    // Out of memory, for what is emitted of the table.
    EmissionMemory,
    // The table weighs too much.
    TooLarge,
}

impl From<TableError> for Refusal {
    ghost use Rattle.linemap_commands.specs.Emission.{table_refusal};

    ghost from_gives = { λ error refusal. refusal ≡ table_refusal error };

    fn from(error: TableError) -> Refusal {
        match error {
            TableError::Memory => Refusal::TableMemory,
            _ => Refusal::Table(error),
        }
    }
}

impl From<EmitError> for Refusal {
    ghost use Rattle.linemap_commands.specs.Emission.{emission_refusal};

    ghost from_gives = { λ error refusal. refusal ≡ emission_refusal error };

    fn from(error: EmitError) -> Refusal {
        match error {
            EmitError::Memory => Refusal::EmissionMemory,
            EmitError::TooLarge => Refusal::TooLarge,
        }
    }
}

impl Refusal {
    // Writes the error line. A fault of the error stream only sets a flag.
    fn report<W: Write>(self, err: &mut W) -> Ended
        ensures { Reports self (W.contents err.old) (W.contents err.new) result }
    {
        match self {
            Refusal::TableMemory => table_out_of_memory(err),
            Refusal::Table(error) => table_refused(err, error.code()),
            Refusal::DoesNotFit => fail(err, "table does not fit the target", ""),
            Refusal::EmissionMemory => emission_out_of_memory(err),
            Refusal::TooLarge => table_too_large(err),
        }
    }
}

/// The image of the table in a text, for a target. Text that isn't a table, a table that doesn't
/// fit the target and one that is too large are refused, in this order, by an error line and status
/// 1. A fault of the error stream only sets `write` in the result.
pub fn emission<E: Write>(
    alloc: Global,
    text: &[u8],
    target: Target,
    err: &mut E,
) -> Result<Vec<u8>, Ended>
    ensures image { IfOk result (λ image. IsImage (encoding_of target) (is_big_of target)
        (table_in text.now) image.items) }
    ensures silent { OnOk result (Keeps (E.contents err.old) (E.contents err.new)) }
    ensures refusal { IfErr result (EndsRefused (encoding_of target) (table_in text.now)
        (E.contents err.old) (E.contents err.new)) }
{
    match image_of(alloc, text, target) {
        Ok(image) => Ok(image),
        Err(refusal) => Err(refusal.report(err)),
    }
}

// The image of a text, or why there is none.
fn image_of(alloc: Global, text: &[u8], target: Target) -> Result<Vec<u8>, Refusal>
    ensures image { IfOk result (λ image. IsImage (encoding_of target) (is_big_of target)
        (table_in text.now) image.items) }
    ensures refusal { IfErr result (RefusesTable (encoding_of target) (table_in text.now)) }
{
    let table = Table::read(alloc, text)?;
    if !table.fits(&target) {
        return Err(Refusal::DoesNotFit);
    }
    Ok(emit(alloc, &table, target)?)
}
