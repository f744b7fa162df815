//! `.debug_aranges`, read once into an index by the offsets of units (DWARF 5, 6.1.2).

ghost use Rattle.std.specs.Prelude.{◌≡◌, ◌≤◌, ◌++◌, Ok, Some, None, OnOk, IfOk, IfErr, length};
ghost use Rattle.std.specs.List.{prefix_len};
ghost use Rattle.std.specs.List.Sorted.{IsNonDecreasingBy};
ghost use Rattle.gimli_lines_rows.specs.Calls.{ReturnsAsOrNoMemory};
ghost use Rattle.gimli_lines_rows.specs.Error.TheVariants.{Memory};
ghost use Rattle.addr2line_ranges.specs.ArangeIndexes.{ranges_at, IsIndexOf, fault_of_sets, offset_of, is_below, AscendsFrom};

use crate::aranges::push_sets;
use crate::unit_arange::UnitArange;
use gimli_dwarf::Dwarf;
use gimli_lines_rows::{Error, Range, Reader};
use std::alloc::Global;
use std::marker::Model;

/// The ranges of `.debug_aranges` by the offsets of their units, up to the first set that can't be
/// read.
#[derive(Debug, Drop)]
pub struct ArangeIndex {
    entries: Vec<UnitArange>,
    fault: Option<Error>,
}

impl Model for ArangeIndex {
    ghost use Rattle.std.specs.List.Sorted.{IsNonDecreasingBy};
    ghost use Rattle.addr2line_ranges.specs.ArangeIndexes.{AddressRanges, offset_of};

    ghost Value = { AddressRanges };

    ghost view = { λ i. record { entries = i.entries.items; fault = i.fault } };

    ghost invariant = { λ i. IsNonDecreasingBy offset_of i.entries.items };
}

// How many of ranges by their units' offsets are of units below an offset. It is a bisection.
fn count_below(entries: &[UnitArange], offset: u64) -> usize
    requires { IsNonDecreasingBy offset_of entries.now }
    ensures count { result ≡ prefix_len (is_below offset) entries.now }
    ensures within { result ≤ length entries.now }
{
    entries.partition_point(
        |entry: &UnitArange| -> bool
            ensures { result ≡ is_below offset entry.now }
        { entry.offset < offset },
    )
}

// The ranges of the unit at an offset, which come first of those by their units' offsets.
fn first_ranges(alloc: Global, entries: &[UnitArange], offset: u64) -> Result<Vec<Range>, Error>
    requires { AscendsFrom offset entries.now }
    ensures { ReturnsAsOrNoMemory (λ v. v.items) result (Ok (ranges_at offset entries.now)) }
{
    let mut ranges = Vec::new(alloc);
    let mut left = entries;
    while let [entry, rest @ ..] = left {
        if entry.offset != offset {
            return Ok(ranges);
        }
        ranges.push(entry.range)?;
        left = rest;
    }
    Ok(ranges)
}

impl ArangeIndex {
    /// The ranges of all sets of a file. It reads the section once and sorts what it has read. The
    /// only refusal is out of memory.
    pub fn read<R: Reader>(alloc: Global, dwarf: &Dwarf<R>) -> Result<Self, Error>
        ensures ranges { IfOk result (λ index. IsIndexOf dwarf.now.file index) }
        ensures fault { IfOk result (λ index. index.fault ≡ fault_of_sets dwarf.now.file) }
        ensures refusal { IfErr result (λ e. e ≡ Memory) }
    {
        let mut entries = Vec::new(alloc);
        let sets = dwarf.debug_aranges.headers()?;
        let fault = push_sets(&mut entries, sets)?;
        entries.sort_by_key(|entry| entry.offset)?;
        Ok(ArangeIndex { entries, fault })
    }

    /// Whether all sets could be read, or why the first couldn't that couldn't. Takes no memory.
    pub fn check(&self) -> Result<(), Error>
        ensures ok { OnOk result (self.now.fault ≡ None) }
        ensures refusal { IfErr result (λ e. self.now.fault ≡ Some e) }
    {
        match self.fault {
            Some(fault) => Err(fault),
            None => Ok(()),
        }
    }

    /// The ranges of the unit at an offset, in the order of the section. It is a bisection, and
    /// takes memory for the ranges.
    pub fn ranges_at(&self, alloc: Global, offset: u64) -> Result<Vec<Range>, Error>
        ensures { ReturnsAsOrNoMemory (λ v. v.items) result
            (Ok (ranges_at offset self.now.entries)) }
    {
        let entries = self.entries.as_slice();
        let first = count_below(entries, offset);
        first_ranges(alloc, &entries[first..], offset)
    }
}
