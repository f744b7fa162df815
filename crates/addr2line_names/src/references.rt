//! Where references by offsets of a section lead.

ghost use Rattle.std.specs.Prelude.{◌≡◌, ◌≤◌, true, false, length, map, option_map};
ghost use Rattle.std.specs.List.Sorted.{IsPartitionPoint};
ghost use Rattle.gimli_dwarf.specs.Calls.{ReturnsOrNoMemory};
ghost use Rattle.addr2line_names.specs.EntryReferences.{begins_below, unit_below, entry_among};
ghost use Rattle.addr2line_names.specs.OrderedUnits.{AreInOrder};

use crate::entry::ReferredEntry;
use crate::file::DebugFile;
use crate::holder::{HasUnit, HoldingUnit};
use gimli_dwarf::{DebugInfoOffset, Dwarf, Error, OffsetInSection, Reader, ReaderOffset, UnitRef};
use std::marker::{Model, PhantomData};

// Whether a unit begins below an offset of its section.
fn begins_below<R: Reader, U: HasUnit<R>>(unit: &U, offset: DebugInfoOffset<R::Offset>) -> bool
    ensures { result ≡ begins_below (R.Offset.count offset.0) (U.facts unit.now) }
{
    unit.header().offset().0.into_u64() < offset.0.into_u64()
}

// How many units begin below an offset of the section. It is a bisection.
fn count_below<R: Reader, U: HasUnit<R>>(units: &[U], offset: DebugInfoOffset<R::Offset>) -> usize
    requires { AreInOrder (map U.facts units.now) }
    ensures within { result ≤ length units.now }
    ensures point { IsPartitionPoint
        (λ u. begins_below (R.Offset.count offset.0) (U.facts u) ≡ true)
        (λ u. begins_below (R.Offset.count offset.0) (U.facts u) ≡ false) units.now result }
{
    units.partition_point(
        |unit: &U| -> bool
            ensures { result ≡ begins_below (R.Offset.count offset.0) (U.facts unit.now) }
        { begins_below(unit, offset) },
    )
}

// The last unit that begins below an offset of the section.
fn unit_below<'a, R: Reader, U: HasUnit<R>>(
    units: &'a [U],
    offset: DebugInfoOffset<R::Offset>,
) -> Option<&'a U>
    requires { AreInOrder (map U.facts units.now) }
    ensures { option_map (λ u. U.facts u.now) result
        ≡ unit_below (R.Offset.count offset.0) (map U.facts units.now) }
{
    let count = count_below(units, offset);
    if count == 0 {
        return None;
    }
    let unit = &units[count - 1];
    Some(unit)
}

/// The units of one section in the order of their offsets, among which references by its offsets
/// lead.
#[derive(Drop)]
pub(crate) struct SectionUnits<'a, R: Reader, U: HasUnit<R>> {
    units: &'a [U],
    reader: PhantomData<R>,
}

impl<'a, R: Reader, U: HasUnit<R>> Model for SectionUnits<'a, R, U> {
    ghost use Rattle.std.specs.Prelude.{List, map};
    ghost use Rattle.gimli_dwarf.specs.UnitFacts.{UnitFacts};
    ghost use Rattle.addr2line_names.specs.OrderedUnits.{AreInOrder};

    ghost Value = { List UnitFacts };

    ghost view = { λ s. map U.facts s.units.now };

    ghost invariant = { λ s. AreInOrder (map U.facts s.units.now) };
}

impl<'a, R: Reader, U: HasUnit<R>> SectionUnits<'a, R, U> {
    /// Units in the order of their offsets.
    pub(crate) fn in_order(units: &'a [U]) -> Self
        requires { AreInOrder (map U.facts units.now) }
        ensures { result ≡ map U.facts units.now }
    {
        SectionUnits {
            units,
            reader: PhantomData,
        }
    }

    /// The entry at an offset of the section. Its unit is found by a bisection. Where the
    /// declarations of that unit aren't kept yet, this is out of memory.
    pub(crate) fn entry_at(
        &self,
        file: DebugFile,
        dwarf: &'a Dwarf<R>,
        offset: DebugInfoOffset<R::Offset>,
    ) -> Result<ReferredEntry<'a, R>, Error>
        ensures { ReturnsOrNoMemory result
            (entry_among file dwarf.now.file self.now (R.Offset.count offset.0)) }
    {
        let refusal = Error::NoEntryAtGivenOffset(offset.0.into_u64());
        let found = unit_below(self.units, offset).ok_or(refusal)?;
        let offset = offset.to_unit_offset(found.header()).ok_or(refusal)?;
        let unit = found.unit().ok_or(Error::Memory)?;
        let holder = HoldingUnit::new(file, UnitRef::new(dwarf, unit));
        Ok(ReferredEntry { holder, offset })
    }
}
