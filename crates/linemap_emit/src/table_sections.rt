//! The sections of a table.

ghost use Rattle.std.specs.Prelude.{◌≡◌, ◌≤◌, ◌^◌, ◌↔◌, true, IfOk, IsErrOf};
ghost use Rattle.linemap_table.specs.TableWeight.{table_weight};
ghost use Rattle.linemap_table.specs.TableUnits.{units_of};
ghost use Rattle.linemap_table.specs.EncodingFits.{fits};
ghost use Rattle.linemap_table.specs.EmissionTargets.{encoding_of, is_big_of};
ghost use Rattle.linemap_emit_fits.specs.EmissionBounds.{sections_size};
ghost use Rattle.linemap_emit_fits.specs.EmittedSections.{emitted_sections};
ghost use Rattle.linemap_emit.specs.SectionAnswers.{AreAnswers};

use crate::error::EmitError;
use crate::sections::Sections;
use crate::table_emitter::emit_units;
use linemap_table::{Table, Target};
use std::alloc::Global;

// A table with this weight or more is too large.
const WEIGHT_LIMIT: u64 = 1 << 31;

/// The sections of a table, for a target that it fits (`Table::fits`). A table whose weight is 2^31
/// or more is refused before any memory is taken; any other is emitted if there is enough memory.
pub fn emit_sections(alloc: Global, table: &Table, target: Target) -> Result<Sections, EmitError>
    requires fits { fits (encoding_of target).address_size (units_of table.now) ≡ true }
    ensures too_large { IsErrOf result EmitError.TooLarge
        ↔ (2 ^ 31 ≤ table_weight (units_of table.now)) }
    ensures sections { IfOk result
        (λ s. s ≡ emitted_sections (encoding_of target) (is_big_of target)
        (units_of table.now)) }
    ensures small { IfOk result (λ s. sections_size s ≤ table_weight (units_of table.now)) }
    ensures answers { IfOk result (λ s. AreAnswers (is_big_of target) s (units_of table.now)) }
{
    if table.weight() >= WEIGHT_LIMIT {
        return Err(EmitError::TooLarge);
    }
    match emit_units(alloc, table.units(), target) {
        Ok(sections) => Ok(sections),
        Err(_refused) => Err(EmitError::Memory),
    }
}
