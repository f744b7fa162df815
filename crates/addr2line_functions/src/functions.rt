//! The functions of a unit.

ghost use Rattle.std.specs.Prelude.{◌≡◌, ◌==◌, ◌≤◌, [], ◌∷◌, not, Ok, IfOk};
ghost use Rattle.gimli_units_entries.specs.Calls.{ReturnsAsOrNoMemory, ReturnsOrNoMemory, StepsAsOrNoMemory};
ghost use Rattle.gimli_units_entries.specs.EntryViews.{raw_attributes};
ghost use Rattle.gimli_units_entries.specs.NamedAttributes.{named_values};
ghost use Rattle.gimli_units_entries.specs.TheConstants.{DW_AT_low_pc, DW_AT_high_pc, DW_AT_ranges};
ghost use Rattle.gimli_units_entries.specs.View.{bytes_left};
ghost use Rattle.addr2line_names.specs.UnitFacts.{UnitInFile};
ghost use Rattle.addr2line_ranges.specs.Functions.{functions_of_unit, function_number};
ghost use Rattle.addr2line_ranges.specs.Searches.{AtMostProbes};
ghost use Rattle.addr2line_functions.specs.CountedFunctions.{function_probes};
ghost use Rattle.addr2line_functions.specs.NextFunctions.{if_has_range, next_function, functions_from};

use crate::function::Function;
use crate::numbered_range::{NumberedRange, RangedItem, RangedItems, number_at};
use addr2line_names::{Abbreviation, DW_AT_high_pc, DW_AT_ranges};
use addr2line_ranges::{Probes, RangeIndex, UnitRef, ranges_of_entry};
use gimli_units_entries::{
    Attribute, DW_AT_low_pc, DW_TAG_subprogram, EntriesRaw, Error, Range, Reader, ReaderOffset,
    UnitOffset,
};
use std::alloc::Global;
use std::marker::Model;
use std::snapshot::Snapshot;

/// The functions of a unit that have a range, in order of appearance. One bisection of their ranges
/// finds the function of an address.
pub struct Functions<O: ReaderOffset> {
    // By their numbers, without their ranges.
    functions: Vec<Function<O>>,
    ranges: RangeIndex<NumberedRange>,
}

impl<O: ReaderOffset> Drop for Functions<O> {
    fn drop(self) {
        let Functions {
            functions: _,
            ranges: _,
        } = self;
    }
}

impl<O: ReaderOffset> Model for Functions<O> {
    ghost use Rattle.std.specs.Prelude.{◌≡◌};
    ghost use Rattle.addr2line_ranges.specs.Functions.{ranges_of_function};
    ghost use Rattle.addr2line_functions.specs.CountedFunctions.{CountedFunctions, no_depth};
    ghost use Rattle.addr2line_functions.specs.RangesByNumber.{numbered_ranges};

    ghost Value = { CountedFunctions };

    ghost view = { λ f. record { functions = f.functions.items; counter = f.ranges.counter } };

    ghost invariant = { λ f.
        f.ranges.entries ≡ numbered_ranges no_depth ranges_of_function f.functions.items };
}

impl<O: ReaderOffset> Functions<O> {
    // With their ranges in order.
    fn new(functions: RangedItems<Function<O>>, probes: &Probes) -> Result<Self, Error>
        ensures { ReturnsOrNoMemory result
            (Ok (record { functions = functions; counter = probes.now.name })) }
    {
        let RangedItems { items, ranges } = functions;
        Ok(Functions {
            functions: items,
            ranges: RangeIndex::new(ranges, probes)?,
        })
    }

    /// The functions. A function's number is its index among them.
    pub fn functions(&self) -> &[Function<O>]
        ensures { result.now ≡ self.now.functions }
    {
        self.functions.as_slice()
    }

    /// The number of the function that an address is in. Where several functions have it, it is
    /// that of the range that begins last, of these that of the one that ends last, of these that
    /// of the last. One bisection of the ranges finds it, without memory.
    pub fn find_address(&self, probe: u64, probes: &mut Probes) -> Option<usize>
        requires counter { probes.old.name ≡ self.now.counter }
        ensures number { result ≡ function_number self.now.functions probe }
        ensures cost { AtMostProbes (function_probes self.now.functions) probes.old probes.new }
    {
        number_at(&self.ranges, 0, probe, probes)
    }
}

// A function, if it has a range.
fn if_has_range<O: ReaderOffset>(
    offset: UnitOffset<O>,
    ranges: Vec<Range>,
) -> Option<RangedItem<Function<O>>>
    ensures { result ≡ if_has_range (record { offset = O.count offset.0; ranges = ranges.items }) }
{
    if ranges.is_empty() {
        return None;
    }
    let item = Function {
        offset,
        ranges: Snapshot::of(&ranges),
    };
    Some(RangedItem {
        item,
        depth: 0,
        ranges,
    })
}

// Reads a function's attributes, and puts those that ranges come from (DWARF 5, 2.17) into a list,
// in place of its contents. Where its declaration has none of these, no name is compared.
fn read_range_attributes<R: Reader>(
    entries: &mut EntriesRaw<'_, R>,
    abbreviation: &Abbreviation<'_>,
    attributes: &mut Vec<Attribute<R>>,
) -> Result<(), Error>
    ensures { StepsAsOrNoMemory
        (λ _. raw_attributes R.view R.Offset.count attributes.new.items) result entries.old
        entries.new (named_values R.Offset.limit
        (DW_AT_low_pc ∷ DW_AT_high_pc ∷ DW_AT_ranges ∷ []) abbreviation.now.attributes) }
{
    let specifications = abbreviation.attributes();
    if abbreviation.has_ranges() {
        let names = [DW_AT_low_pc, DW_AT_high_pc, DW_AT_ranges];
        entries.read_named_attributes(specifications, &names, attributes)
    } else {
        entries.read_named_attributes(specifications, &[], attributes)
    }
}

// The function of the next entry, if it is a function that has a range. Of a function's attributes
// those are kept that ranges come from, in a list whose memory is used again.
fn next_function<R: Reader>(
    alloc: Global,
    unit: &UnitRef<'_, R>,
    entries: &mut EntriesRaw<'_, R>,
    attributes: &mut Vec<Attribute<R>>,
) -> Result<Option<RangedItem<Function<R::Offset>>>, Error>
    ensures { ReturnsAsOrNoMemory (λ f. (f, entries.new)) result
        (next_function R.Offset.limit unit.now entries.old) }
{
    let offset = entries.next_offset();
    let Some(abbreviation) = entries.read_abbreviation()? else {
        return Ok(None);
    };
    if abbreviation.tag() != DW_TAG_subprogram {
        entries.skip_entry(&abbreviation)?;
        return Ok(None);
    }
    read_range_attributes(entries, &abbreviation, attributes)?;
    let ranges = ranges_of_entry(alloc, unit, attributes)?;
    Ok(if_has_range(offset, ranges))
}

// Skips entries up to one of a function, or one that can't be read or skipped. Returns whether an
// entry is left.
fn find_function<R: Reader>(entries: &mut EntriesRaw<'_, R>) -> bool
    ensures left { result ≡ not (bytes_left entries.new.rest == 0) }
    ensures functions { (u : UnitInFile) → functions_from R.Offset.limit u entries.new
        ≡ functions_from R.Offset.limit u entries.old }
    ensures within { bytes_left entries.new.rest ≤ bytes_left entries.old.rest }
{
    entries.skip_others(&[DW_TAG_subprogram], isize::MIN);
    !entries.is_empty()
}

// The functions of a unit that have a range, read from its entries.
fn read_functions<R: Reader>(
    alloc: Global,
    unit: &UnitRef<'_, R>,
) -> Result<RangedItems<Function<R::Offset>>, Error>
    ensures { ReturnsOrNoMemory result (functions_of_unit unit.now) }
{
    let mut entries = unit.entries_raw(None)?;
    let mut attributes = Vec::new(alloc);
    let mut functions = RangedItems::new(alloc);
    while find_function(&mut entries) {
        let next = next_function(alloc, unit, &mut entries, &mut attributes)?;
        functions = functions.with(next)?;
    }
    Ok(functions)
}

/// The functions of a unit that have a range, with their ranges in order, looks at which this
/// counter counts. Of the unit's entries those of functions are read and all others skipped. The
/// first entry that can't be read or skipped, and the first function whose ranges can't be read, is
/// the error. It takes time by n log n in the ranges, after reading.
pub fn functions_of_unit<R: Reader>(
    alloc: Global,
    unit: &UnitRef<'_, R>,
    probes: &Probes,
) -> Result<Functions<R::Offset>, Error>
    ensures functions { ReturnsAsOrNoMemory (λ f. f.functions) result
        (functions_of_unit unit.now) }
    ensures counter { IfOk result (λ f. f.counter ≡ probes.now.name) }
{
    let functions = read_functions(alloc, unit)?;
    Functions::new(functions, probes)
}
