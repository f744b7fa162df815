//! The lines that a lookup asks for are read and kept before it answers.

ghost use Rattle.std.specs.Prelude.{◌≡◌, ◌≢◌, map, option_map, slice_get, Err, OnOk, IfErr};
ghost use Rattle.addr2line_unit.specs.Calls.{ReturnsOrNoMemory};
ghost use Rattle.addr2line_unit.specs.Error.TheVariants.{Memory};
ghost use Rattle.addr2line_unit.specs.BorrowedLocations.{location_value};
ghost use Rattle.addr2line_unit.specs.NumberedRanges.{covering_ranges};
ghost use Rattle.addr2line_unit.specs.ContextUnits.{ordered_ranges};
ghost use Rattle.addr2line_unit.specs.ResolvedUnits.{plain_unit, value_of_unit};
ghost use Rattle.addr2line_lookups.specs.KeptCalls.{LeavesCalls, kept_calls_of};
ghost use Rattle.addr2line_lookups.specs.FunctionPlaces.{chain_of};
ghost use Rattle.addr2line_lookups.specs.KeptUnits.{KeepsAt, KeepsAsked, ReadsAsked, ReadsNoFunctions, AsksAmong, row_at_number, location_of_unit_row, FindsRow, KeepsFound};
ghost use Rattle.addr2line_lookups.specs.LookupCosts.{AtMostLooks, ReadsLines, row_probes_at, row_looks};

use addr2line_unit::{Error, LineRow, Location, Reader, ResUnit, UnitRanges};
use std::alloc::Global;

// ---- one address

/// A row of a unit's lines, and the unit's number.
#[derive(Clone, Copy, Debug)]
pub struct UnitRow {
    pub unit: usize,
    pub row: LineRow,
}

/// The unit of a number, if there is one.
pub fn unit_at<R: Reader>(units: &[ResUnit<R>], number: usize) -> Option<&ResUnit<R>>
    ensures { option_map (λ u. u.now) result ≡ slice_get units.now number }
{
    match units.get(number) {
        Some(unit) => Some(unit),
        None => None,
    }
}

/// The place of a row of a unit, if the unit's lines are kept and not refused. Nothing is searched.
pub fn place_in<R: Reader>(units: &[ResUnit<R>], found: UnitRow) -> Option<Location<'_>>
    ensures { KeepsAt units.now found.unit → option_map location_value result
        ≡ location_of_unit_row (map plain_unit units.now) found }
{
    match unit_at(units, found.unit) {
        Some(unit) => unit.location_of_row(&found.row),
        None => None,
    }
}

// The row of an address in the lines of the unit of a number, or the refusal of them.
pub(crate) fn find_row_at<R: Reader>(
    alloc: Global,
    units: &mut Vec<ResUnit<R>>,
    number: usize,
    probe: u64,
) -> Result<Option<LineRow>, Error>
    ensures values { map value_of_unit units.new.items ≡ map value_of_unit units.old.items }
    ensures calls { LeavesCalls units.old.items units.new.items }
    ensures same { map kept_calls_of units.new.items ≡ map kept_calls_of units.old.items }
    ensures chain { chain_of units.new.items number ≡ chain_of units.old.items number }
    ensures found { ReturnsOrNoMemory result
        (row_at_number (map plain_unit units.old.items) probe number) }
    ensures kept { result ≢ Err Memory → KeepsAt units.new.items number }
    ensures cost { AtMostLooks (row_probes_at (map value_of_unit units.old.items) probe number)
        units.old.items units.new.items }
    ensures reads { ReadsAsked (λ n. n ≡ number) units.old.items units.new.items }
    ensures functions { ReadsNoFunctions units.old.items units.new.items }
    ensures free { KeepsAt units.old.items number → result ≢ Err Memory }
{
    if number >= units.len() {
        return Ok(None);
    }
    let unit = &mut units[number];
    unit.find_row(alloc, probe)
}

/// The row whose place an address has, with its unit's number: of the units with a range over the
/// address, in their order, the first with a row for it. Lines are read on the way and kept, a
/// refusal too.
pub fn find_row<R: Reader>(
    alloc: Global,
    units: &mut Vec<ResUnit<R>>,
    ranges: &UnitRanges,
    probe: u64,
) -> Result<Option<UnitRow>, Error>
    requires { ranges.now ≡ ordered_ranges (map plain_unit units.old.items) }
    ensures values { map value_of_unit units.new.items ≡ map value_of_unit units.old.items }
    ensures calls { LeavesCalls units.old.items units.new.items }
    ensures found { FindsRow (map plain_unit units.old.items) probe result }
    ensures kept { KeepsFound units.new.items result }
    ensures asked { result ≢ Err Memory → KeepsAsked
        (AsksAmong (map plain_unit units.old.items) probe (covering_ranges probe ranges.now))
        units.new.items }
    ensures reads { ReadsAsked
        (AsksAmong (map plain_unit units.old.items) probe (covering_ranges probe ranges.now))
        units.old.items units.new.items }
    ensures functions { ReadsNoFunctions units.old.items units.new.items }
    ensures cost { AtMostLooks (row_looks (map plain_unit units.old.items)
        (map value_of_unit units.old.items) probe (covering_ranges probe ranges.now))
        units.old.items units.new.items }
    ensures free { KeepsAsked
        (AsksAmong (map plain_unit units.old.items) probe (covering_ranges probe ranges.now))
        units.old.items → result ≢ Err Memory }
{
    let mut covering = ranges.covering(probe);
    while let Some(range) = covering.next() {
        let unit = range.unit;
        if let Some(row) = find_row_at(alloc, units, unit, probe)? {
            return Ok(Some(UnitRow { unit, row }));
        }
    }
    Ok(None)
}

// ---- all lines

/// Reads the lines of the unit of a number, unless they are kept.
pub fn read_at<R: Reader>(
    alloc: Global,
    units: &mut Vec<ResUnit<R>>,
    number: usize,
) -> Result<(), Error>
    ensures change { ReadsLines units.old.items units.new.items }
    ensures kept { OnOk result (KeepsAt units.new.items number) }
    ensures reads { ReadsAsked (λ n. n ≡ number) units.old.items units.new.items }
    ensures refusal { IfErr result (λ e. e ≡ Memory) }
    ensures free { KeepsAt units.old.items number → result ≢ Err Memory }
{
    if number >= units.len() {
        return Ok(());
    }
    let unit = &mut units[number];
    unit.read_lines(alloc)
}
