//! The calls of a function, read from the entries below its own.

ghost use Rattle.std.specs.Prelude.{◌≡◌, pos, int_lt};
ghost use Rattle.gimli_units_entries.specs.Calls.{ReturnsAsOrNoMemory, ReturnsOrNoMemory};
ghost use Rattle.addr2line_functions.specs.EntryRowViews.{row_view};
ghost use Rattle.addr2line_ranges.specs.InlinedCalls.{call_at, calls_among, entries_of};
ghost use Rattle.addr2line_functions.specs.CallNesting.{leave, skip_inside, call_if, next_call};

use crate::call::Call;
use crate::call_facts::{CallFacts, call_facts};
use crate::naming::Names;
use crate::nesting::Nesting;
use crate::numbered_range::{RangedItem, RangedItems};
use crate::place::{call_file, number_or_0};
use crate::{EntryRow, next_row};
use addr2line_ranges::{UnitRef, entry_ranges};
use gimli_units_entries::{
    Attribute, DW_AT_call_column, DW_AT_call_line, EntriesRaw, Error, Reader,
};
use std::alloc::Global;
use std::snapshot::Snapshot;

// The call of an entry with these attributes, which is in a number of others.
fn call_at<R: Reader, N: Names<R>>(
    alloc: Global,
    unit: &UnitRef<'_, R>,
    names: &N,
    depth: usize,
    row: EntryRow<R::Offset>,
    attributes: &[Attribute<R>],
) -> Result<RangedItem<Call<R>>, Error>
    ensures { ReturnsOrNoMemory result
        (call_at unit.now (N.naming names.now) depth
        (row_view R.view R.Offset.count row attributes.now)) }
{
    let found = call_facts(unit, names, attributes)?;
    let CallFacts {
        name,
        ranges: facts,
    } = found;
    let ranges = entry_ranges(alloc, unit, &facts)?;
    let unit = unit.unit;
    let item = Call {
        depth: Snapshot::of(&depth),
        offset: row.offset,
        ranges: Snapshot::of(&ranges),
        name,
        file: call_file(attributes, unit.header.version()),
        line: number_or_0(attributes, DW_AT_call_line),
        column: number_or_0(attributes, DW_AT_call_column),
    };
    Ok(RangedItem {
        item,
        depth,
        ranges,
    })
}

// The same, if the entry is a call and so has a depth.
fn call_if<R: Reader, N: Names<R>>(
    alloc: Global,
    unit: &UnitRef<'_, R>,
    names: &N,
    depth: Option<usize>,
    row: EntryRow<R::Offset>,
    attributes: &[Attribute<R>],
) -> Result<Option<RangedItem<Call<R>>>, Error>
    ensures { ReturnsOrNoMemory result
        (call_if unit.now (N.naming names.now)
        (row_view R.view R.Offset.count row attributes.now) depth) }
{
    match depth {
        Some(depth) => Ok(Some(call_at(alloc, unit, names, depth, row, attributes)?)),
        None => Ok(None),
    }
}

// The next entry below a function, as a call if it is one of the function's.
fn next_call<R: Reader, N: Names<R>>(
    alloc: Global,
    unit: &UnitRef<'_, R>,
    names: &N,
    entries: &mut EntriesRaw<'_, R>,
    nesting: &mut Nesting,
    attributes: &mut Vec<Attribute<R>>,
) -> Result<Option<RangedItem<Call<R>>>, Error>
    ensures { ReturnsAsOrNoMemory
        (λ c. (c, record { walk = entries.new; nesting = nesting.new })) result
        (next_call R.Offset.limit unit.now (N.naming names.now)
        (record { walk = entries.old; nesting = nesting.old })) }
{
    nesting.leave(entries.next_depth());
    let row = next_row(entries, nesting.read_tag(), attributes)?;
    let depth = nesting.enter(row.tag, row.depth)?;
    call_if(alloc, unit, names, depth, row, attributes)
}

// Skips entries up to the next call or nested function, or up to the end of what the next entry is
// in. Returns whether an entry below the function is left.
fn find_call<R: Reader>(entries: &mut EntriesRaw<'_, R>, nesting: &mut Nesting) -> bool
    ensures left { result ≡ int_lt (pos 0) entries.new.depth }
    ensures inside { nesting.new ≡ leave entries.old.depth nesting.old }
    ensures others { entries.new ≡ skip_inside nesting.new entries.old }
{
    nesting.leave(entries.next_depth());
    nesting.skip_inside(entries);
    entries.next_depth() > 0
}

// The calls of a function, from the entries after its own, which is at depth 0.
pub(crate) fn calls_below<R: Reader, N: Names<R>>(
    alloc: Global,
    unit: &UnitRef<'_, R>,
    names: &N,
    mut entries: EntriesRaw<'_, R>,
) -> Result<RangedItems<Call<R>>, Error>
    ensures { ReturnsOrNoMemory result
        (calls_among unit.now (N.naming names.now)
        (entries_of R.Offset.limit entries.entry)) }
{
    let mut nesting = Nesting::new(alloc);
    let mut attributes = Vec::new(alloc);
    let mut calls = RangedItems::new(alloc);
    while find_call(&mut entries, &mut nesting) {
        let next = next_call(
            alloc,
            unit,
            names,
            &mut entries,
            &mut nesting,
            &mut attributes,
        )?;
        calls = calls.with(next)?;
    }
    Ok(calls)
}
