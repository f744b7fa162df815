//! The frames of an address in the unit of a number: found, and then lent.

ghost use Rattle.std.specs.Prelude.{◌≡◌, ◌≢◌, true, None, Err, map, option_map};
ghost use Rattle.addr2line_unit.specs.Calls.{ReturnsAs};
ghost use Rattle.addr2line_unit.specs.Error.TheVariants.{Memory};
ghost use Rattle.addr2line_unit.specs.BorrowedFrames.{frames_left};
ghost use Rattle.addr2line_unit.specs.BorrowedLocations.{location_value};
ghost use Rattle.addr2line_unit.specs.Lines.{row_location};
ghost use Rattle.addr2line_unit.specs.ResolvedUnits.{value_of_unit};
ghost use Rattle.addr2line_lookups.specs.Preloads.{load_at};
ghost use Rattle.addr2line_lookups.specs.KeptUnits.{KeepsAt, KeepsFunctionsAt};
ghost use Rattle.addr2line_lookups.specs.KeptCalls.{known_among, HoldCalls};
ghost use Rattle.addr2line_lookups.specs.FramePlaces.{place_if_any, frames_at_number, frames_in_unit, frames_at_place, FindsFrames};
ghost use Rattle.addr2line_lookups.specs.AddressSearches.{SearchesUnit};

use crate::function_place::find_function_at;
use crate::settle::{find_row_at, unit_at};
use addr2line_unit::{Error, FrameIter, LineIndex, LineRow, Location, Reader, ResUnit, Unit};
use std::alloc::Global;

/// Where the frames of an address are: the number of a unit, that of the function there which holds
/// the address, and the row of the unit's lines, each if there is one. The unit keeps the numbers
/// of the calls that the address is in, until other calls are found there.
#[derive(Clone, Copy)]
pub struct FramePlace {
    pub unit: usize,
    pub function: Option<usize>,
    pub row: Option<LineRow>,
}

// ---- finding

// A place with a function or a row.
fn place_if_any(unit: usize, function: Option<usize>, row: Option<LineRow>) -> Option<FramePlace>
    ensures { result ≡ place_if_any unit function row }
{
    if function.is_none() && row.is_none() {
        return None;
    }
    Some(FramePlace {
        unit,
        function,
        row,
    })
}

/// Where the frames of an address are in the unit of a number. Functions, calls and lines are read
/// on the way and kept; they refuse in this order.
pub fn find_frames_at<R: Reader>(
    alloc: Global,
    units: &mut Vec<ResUnit<R>>,
    supplement_units: &[Unit<R>],
    number: usize,
    probe: u64,
) -> Result<Option<FramePlace>, Error>
    requires decided { load_at (map value_of_unit units.old.items) number ≡ None }
    requires calls { HoldCalls (known_among units.old.items supplement_units.now)
        units.old.items }
    ensures change { SearchesUnit (known_among units.old.items supplement_units.now) probe number
        units.old.items units.new.items }
    ensures found { FindsFrames units.new.items
        (frames_at_number (known_among units.old.items supplement_units.now)
        (map value_of_unit units.old.items) probe number) result }
    ensures kept { result ≢ Err Memory → KeepsFunctionsAt units.new.items number }
{
    if number >= units.len() {
        return Ok(None);
    }
    let function = find_function_at(alloc, units, supplement_units, number, probe)?;
    let row = find_row_at(alloc, units, number, probe)?;
    Ok(place_if_any(number, function, row))
}

// ---- lending

// The place of a row, if there is one.
fn location_of_row(lines: &LineIndex, row: Option<LineRow>) -> Option<Location<'_>>
    ensures { option_map location_value result
        ≡ option_map (row_location lines.now.lines.files) row }
{
    match row {
        Some(row) => Some(lines.location_of_row(&row)),
        None => None,
    }
}

// The frames at a place in a unit, if its lines are kept. Nothing is searched.
fn frames_in_unit<'ctx, R: Reader>(
    unit: &'ctx ResUnit<R>,
    place: FramePlace,
) -> Result<FrameIter<'ctx, R>, Error>
    ensures { unit.now.keeps_lines ≡ true
        → ReturnsAs frames_left result (frames_in_unit place unit.now.chain unit.now) }
{
    match unit.kept_lines() {
        Some(Ok(lines)) => {
            let lines = lines.index();
            let here = location_of_row(lines, place.row);
            unit.frames(lines, here, place.function)
        }
        Some(Err(error)) => Err(*error),
        // Lines that aren't kept are refused as out of memory.
        None => Err(Error::Memory),
    }
}

/// The frames at a place, if the lines of its unit are kept. Nothing is searched.
pub fn frames_at_place<'ctx, R: Reader>(
    units: &'ctx [ResUnit<R>],
    place: FramePlace,
) -> Result<FrameIter<'ctx, R>, Error>
    ensures { KeepsAt units.now place.unit
        → ReturnsAs frames_left result (frames_at_place units.now place) }
{
    match unit_at(units, place.unit) {
        Some(unit) => frames_in_unit(unit, place),
        None => Err(Error::NoSuchUnit),
    }
}
