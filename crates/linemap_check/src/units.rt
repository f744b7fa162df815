//! The tests of one unit.

ghost use Rattle.std.specs.Prelude.{◌≡◌, ◌||◌, List, Bool, length, map};
ghost use Rattle.std.specs.List.{list_any};
ghost use Rattle.linemap_meaning.specs.Conditions.{any_call, any_ranges, has_bad_file_number, has_bad_line_or_column, has_bad_text, has_function_outside, has_functions_overlap, has_out_of_bounds, has_sequence_outside, has_sequences_overlap};
ghost use Rattle.linemap_meaning.specs.TableParts.{RangePart};
ghost use Rattle.linemap_meaning.specs.TableViews.{function_part, range_part, unit_part};

use crate::calls::{CallTest, any_call};
use crate::functions::any_bad_name;
use crate::outside::any_outside;
use crate::overlaps::any_overlap;
use crate::ranges::{has_empty_range, has_range_out_of_bounds};
use crate::texts::{any_bad_file, is_bad_text};
use crate::{functions, sequences};
use linemap_meaning::table::{TableCall, TableFunction, TableRange, TableUnit};

/// A test of the ranges of a unit, a function or a call.
pub trait RangesTest {
    ghost holds: { Self → List RangePart → Bool };

    fn holds(&self, ranges: &[TableRange]) -> bool
        ensures { result ≡ holds self.now (map range_part ranges.now) };
}

/// Whether the ranges of the unit, of a function of it or of a call in one pass the test.
pub fn any_ranges<R: RangesTest>(test: &R, unit: &TableUnit) -> bool
    ensures { result ≡ any_ranges (R.holds test.now) (unit_part unit.now) }
{
    test.holds(&unit.ranges) || any_function_ranges(test, &unit.functions)
}

fn any_function_ranges<R: RangesTest>(test: &R, functions: &[TableFunction]) -> bool
    ensures { result ≡ list_any
        (λ f. R.holds test.now f.ranges || any_call (λ s. R.holds test.now s.ranges) f.calls)
        (map function_part functions.now) }
{
    for function in functions {
        if test.holds(&function.ranges) || any_call(&CallRanges { test }, &function.calls) {
            return true;
        }
    }
    false
}

// The test of a call's ranges.
#[derive(Drop)]
struct CallRanges<'a, R> {
    test: &'a R,
}

impl<R: RangesTest> CallTest for CallRanges<'_, R> {
    ghost passes = { λ s site. R.holds s.test.now site.ranges };

    fn passes(&self, call: &TableCall) -> bool {
        self.test.holds(&call.ranges)
    }
}

/// B4.
pub struct EmptyRange;

impl RangesTest for EmptyRange {
    ghost use Rattle.linemap_meaning.specs.Conditions.{is_empty_range};

    ghost holds = { λ _. list_any is_empty_range };

    fn holds(&self, ranges: &[TableRange]) -> bool {
        has_empty_range(ranges)
    }
}

/// B5, of ranges.
pub struct RangeOutOfBounds;

impl RangesTest for RangeOutOfBounds {
    ghost use Rattle.linemap_meaning.specs.Conditions.{range_out_of_bounds};

    ghost holds = { λ _. list_any range_out_of_bounds };

    fn holds(&self, ranges: &[TableRange]) -> bool {
        has_range_out_of_bounds(ranges)
    }
}

/// B6.
pub struct NoRange;

impl RangesTest for NoRange {
    ghost use Rattle.std.specs.Prelude.{◌==◌};

    ghost holds = { λ _ rs. length rs == 0 };

    fn holds(&self, ranges: &[TableRange]) -> bool {
        ranges.is_empty()
    }
}

/// B5.
pub fn has_out_of_bounds(unit: &TableUnit) -> bool
    ensures { result ≡ has_out_of_bounds (unit_part unit.now) }
{
    any_ranges(&RangeOutOfBounds, unit) || sequences::any_out_of_bounds(&unit.sequences)
}

/// B8.
pub fn has_function_outside(unit: &TableUnit) -> bool
    ensures { result ≡ has_function_outside (unit_part unit.now) }
{
    any_outside(&unit.ranges, &unit.functions)
}

/// B9.
pub fn has_functions_overlap(unit: &TableUnit) -> bool
    ensures { result ≡ has_functions_overlap (unit_part unit.now) }
{
    any_overlap(&unit.functions)
}

/// B12.
pub fn has_sequence_outside(unit: &TableUnit) -> bool
    ensures { result ≡ has_sequence_outside (unit_part unit.now) }
{
    any_outside(&unit.ranges, &unit.sequences)
}

/// B13.
pub fn has_sequences_overlap(unit: &TableUnit) -> bool
    ensures { result ≡ has_sequences_overlap (unit_part unit.now) }
{
    any_overlap(&unit.sequences)
}

/// B15.
pub fn has_bad_line_or_column(unit: &TableUnit) -> bool
    ensures { result ≡ has_bad_line_or_column (unit_part unit.now) }
{
    sequences::any_bad_line_or_column(&unit.sequences)
        || functions::any_bad_line_or_column(&unit.functions)
}

/// B16.
pub fn has_bad_file_number(unit: &TableUnit) -> bool
    ensures { result ≡ has_bad_file_number (unit_part unit.now) }
{
    let files = unit.files.len();
    sequences::any_bad_file_number(&unit.sequences, files)
        || functions::any_bad_file_number(&unit.functions, files)
}

/// B17.
pub fn has_bad_text(unit: &TableUnit) -> bool
    ensures { result ≡ has_bad_text (unit_part unit.now) }
{
    is_bad_text(&unit.directory)
        || is_bad_text(&unit.name)
        || any_bad_file(&unit.files)
        || any_bad_name(&unit.functions)
}
