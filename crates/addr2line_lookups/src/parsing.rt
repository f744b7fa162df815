//! The lines of all units.

ghost use Rattle.std.specs.Prelude.{◌≡◌, ◌≢◌, Err, map};
ghost use Rattle.addr2line_unit.specs.Calls.{ReturnsOrNoMemory};
ghost use Rattle.addr2line_unit.specs.Error.TheVariants.{Memory};
ghost use Rattle.addr2line_unit.specs.Contexts.{all_lines_or_refusal};
ghost use Rattle.addr2line_unit.specs.ResolvedUnits.{plain_unit};
ghost use Rattle.addr2line_lookups.specs.KeptUnits.{KeepsAt, KeepsAsked, ReadsAsked, AsksForLines, check_at};
ghost use Rattle.addr2line_lookups.specs.LookupCosts.{ReadsLines};

use addr2line_unit::{Error, Reader, ResUnit};
use std::alloc::Global;

// Whether the lines of the unit of a number can be read, or else the refusal; they are read and
// kept.
pub(crate) fn check_at<R: Reader>(
    alloc: Global,
    units: &mut Vec<ResUnit<R>>,
    number: usize,
) -> Result<(), Error>
    ensures change { ReadsLines units.old.items units.new.items }
    ensures found { ReturnsOrNoMemory result (check_at (map plain_unit units.old.items) number) }
    ensures kept { result ≢ Err Memory → KeepsAt units.new.items number }
    ensures reads { ReadsAsked (λ n. n ≡ number) units.old.items units.new.items }
    ensures free { KeepsAt units.old.items number → result ≢ Err Memory }
{
    if number >= units.len() {
        return Ok(());
    }
    let unit = &mut units[number];
    unit.check_lines(alloc)
}

// Whether the lines of all units can be read, or else the first refusal. They are read and kept, up
// to that refusal.
pub(crate) fn check_lines<R: Reader>(
    alloc: Global,
    units: &mut Vec<ResUnit<R>>,
) -> Result<(), Error>
    ensures change { ReadsLines units.old.items units.new.items }
    ensures found { ReturnsOrNoMemory result
        (all_lines_or_refusal (map plain_unit units.old.items)) }
    ensures asked { result ≢ Err Memory
        → KeepsAsked (AsksForLines (map plain_unit units.old.items)) units.new.items }
    ensures reads { ReadsAsked (AsksForLines (map plain_unit units.old.items))
        units.old.items units.new.items }
    ensures free { KeepsAsked (AsksForLines (map plain_unit units.old.items)) units.old.items
        → result ≢ Err Memory }
{
    let mut number = 0;
    while number < units.len() {
        check_at(alloc, units, number)?;
        number += 1;
    }
    Ok(())
}
