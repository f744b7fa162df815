//! The ranges that units and entries declare (DWARF 5, 2.17 and 3.1.1).

ghost use Rattle.std.specs.Prelude.{◌≡◌, Ok};
ghost use Rattle.std.specs.Option.{option_to_list};
ghost use Rattle.gimli_lines_rows.specs.Calls.{ReturnsAsOrNoMemory};
ghost use Rattle.gimli_dwarf.specs.EntryViews.{raw_attributes};
ghost use Rattle.addr2line_index.specs.UnitRanges.{range_if_nonempty, low_to_high, or_else, ranges_of_aranges};
ghost use Rattle.addr2line_index.specs.EntryRanges.{ranges_of_entry};
ghost use Rattle.addr2line_ranges.specs.ArangeIndexes.{IsIndexOf};
ghost use Rattle.addr2line_ranges.specs.LastFacts.{root_range, declared_by, entry_ranges_by};
ghost use Rattle.addr2line_ranges.specs.LastLists.{IsLastOf};

use crate::arange_index::ArangeIndex;
use crate::facts::{LastFacts, facts_of};
use crate::last_list::{LastList, shared_list};
use crate::lists::listed_ranges;
use crate::push::push_if_any;
use gimli_dwarf::UnitRef;
use gimli_lines_rows::{Attribute, Error, Range, Reader, ReaderOffset};
use std::alloc::Global;
use std::rc::Rc;

// A range, if it begins before it ends.
fn range_if_nonempty(begin: u64, end: u64) -> Option<Range>
    ensures { option_to_list result ≡ range_if_nonempty begin end }
{
    if begin < end {
        Some(Range { begin, end })
    } else {
        None
    }
}

// From low_pc to high_pc, which is an address or a size.
fn low_to_high(begin: Option<u64>, end: Option<u64>, size: Option<u64>) -> Option<Range>
    ensures { option_to_list result ≡ low_to_high begin end size }
{
    let begin = begin?;
    match (end, size) {
        (Some(end), _) => range_if_nonempty(begin, end),
        (None, Some(size)) => range_if_nonempty(begin, begin.wrapping_add(size)),
        (None, None) => None,
    }
}

// What low_pc and high_pc say.
fn root_range<O: ReaderOffset>(facts: &LastFacts<O>) -> Option<Range>
    ensures { option_to_list result ≡ root_range facts.now }
{
    low_to_high(facts.begin, facts.end, facts.size)
}

// The address ranges of a unit, or another range where they are none.
fn aranges_or<R: Reader>(
    alloc: Global,
    unit: &UnitRef<'_, R>,
    aranges: &ArangeIndex,
    other: Option<Range>,
) -> Result<Vec<Range>, Error>
    requires { IsIndexOf unit.now.file aranges.now }
    ensures { ReturnsAsOrNoMemory (λ v. v.items) result
        (Ok (or_else (ranges_of_aranges unit.now.file unit.now.facts.header.offset)
        (option_to_list other))) }
{
    let mut ranges = aranges_of_unit(alloc, unit, aranges)?;
    if ranges.is_empty() {
        push_if_any(&mut ranges, other)?;
    }
    Ok(ranges)
}

// The ranges of a unit in `.debug_aranges`.
fn aranges_of_unit<R: Reader>(
    alloc: Global,
    unit: &UnitRef<'_, R>,
    aranges: &ArangeIndex,
) -> Result<Vec<Range>, Error>
    requires { IsIndexOf unit.now.file aranges.now }
    ensures { ReturnsAsOrNoMemory (λ v. v.items) result
        (Ok (ranges_of_aranges unit.now.file unit.now.facts.header.offset)) }
{
    let unit = unit.unit;
    aranges.ranges_at(alloc, unit.header.offset().0.into_u64())
}

// The same, to be shared.
fn shared_aranges<R: Reader>(
    alloc: Global,
    unit: &UnitRef<'_, R>,
    aranges: &ArangeIndex,
    other: Option<Range>,
) -> Result<Rc<Vec<Range>>, Error>
    requires { IsIndexOf unit.now.file aranges.now }
    ensures { ReturnsAsOrNoMemory (λ r. r.value.items) result
        (Ok (or_else (ranges_of_aranges unit.now.file unit.now.facts.header.offset)
        (option_to_list other))) }
{
    Ok(Rc::new(alloc, aranges_or(alloc, unit, aranges, other)?)?)
}

/// What a unit declares: its range list, or else its address ranges, or else what low_pc and
/// high_pc say, to be shared.
pub fn declared_ranges<R: Reader>(
    alloc: Global,
    unit: &UnitRef<'_, R>,
    aranges: &ArangeIndex,
    last: &mut LastList,
    facts: &LastFacts<R::Offset>,
) -> Result<Rc<Vec<Range>>, Error>
    requires index { IsIndexOf unit.now.file aranges.now }
    requires last { IsLastOf unit.now.file last.old }
    ensures ranges { ReturnsAsOrNoMemory (λ r. r.value.items) result
        (declared_by unit.now facts.now) }
    ensures last { IsLastOf unit.now.file last.new }
{
    match facts.list {
        Some(Some(offset)) => shared_list(alloc, unit, offset, last),
        _ => shared_aranges(alloc, unit, aranges, root_range(facts)),
    }
}

// A range as a list, if there is one.
fn list_of_range(alloc: Global, range: Option<Range>) -> Result<Vec<Range>, Error>
    ensures { ReturnsAsOrNoMemory (λ v. v.items) result (Ok (option_to_list range)) }
{
    let mut ranges = Vec::new(alloc);
    push_if_any(&mut ranges, range)?;
    Ok(ranges)
}

/// What an entry with these facts declares: its range list, or else what low_pc and high_pc say.
pub fn entry_ranges<R: Reader>(
    alloc: Global,
    unit: &UnitRef<'_, R>,
    facts: &LastFacts<R::Offset>,
) -> Result<Vec<Range>, Error>
    ensures { ReturnsAsOrNoMemory (λ v. v.items) result
        (entry_ranges_by unit.now facts.now) }
{
    if let Some(Some(offset)) = facts.list {
        listed_ranges(alloc, unit, offset)
    } else {
        list_of_range(alloc, root_range(facts))
    }
}

/// The ranges of an entry with these attributes, as a function or a call has them: its range list,
/// or else what low_pc and high_pc say. Refused is an attribute whose address or list can't be
/// read, the first of them, and then a range list.
pub fn ranges_of_entry<R: Reader>(
    alloc: Global,
    unit: &UnitRef<'_, R>,
    attributes: &[Attribute<R>],
) -> Result<Vec<Range>, Error>
    ensures { ReturnsAsOrNoMemory (λ v. v.items) result
        (ranges_of_entry unit.now
        (raw_attributes R.view R.Offset.count attributes.now)) }
{
    let facts = facts_of(unit, attributes)?;
    entry_ranges(alloc, unit, &facts)
}
