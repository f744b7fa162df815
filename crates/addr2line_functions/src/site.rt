//! The places that call.

ghost use Rattle.std.specs.Prelude.{◌≡◌, option_map, option_and_then, slice_get};
ghost use Rattle.addr2line_ranges.specs.BorrowedLocations.{location_value};
ghost use Rattle.addr2line_ranges.specs.Frames.{nonzero, call_site};
ghost use Rattle.addr2line_functions.specs.BorrowedLines.{files_in};

use crate::Call;
use addr2line_ranges::{LineIndex, Location};
use gimli_units_entries::Reader;

// A line or a column, if it is known; 0 is not.
fn nonzero(number: u32) -> Option<u32>
    ensures { result ≡ nonzero number }
{
    if number == 0 { None } else { Some(number) }
}

// The text of a file of the lines, if there are lines and its number is known.
fn file_of(lines: Option<&LineIndex>, number: Option<u64>) -> Option<&str>
    ensures { option_map (λ t. t.now) result
        ≡ option_and_then (slice_get (files_in (option_map (λ l. l.now) lines.entry))) number }
{
    match (lines, number) {
        (Some(lines), Some(number)) => lines.file(number),
        _ => None,
    }
}

// The place that calls, in the files of the unit's lines.
pub(crate) fn call_site<'ctx, R: Reader>(
    lines: Option<&'ctx LineIndex>,
    call: &Call<R>,
) -> Location<'ctx>
    ensures { location_value result
        ≡ call_site (files_in (option_map (λ l. l.now) lines.entry)) call.now }
{
    Location {
        file: file_of(lines, call.file()),
        line: nonzero(call.line()),
        column: nonzero(call.column()),
        statement: None,
        discriminator: None,
    }
}
