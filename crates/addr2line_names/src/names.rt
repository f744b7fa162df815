//! The names of entries.

ghost use Rattle.std.specs.Prelude.{◌≡◌, map, option_map};
ghost use Rattle.gimli_dwarf.specs.Calls.{ReturnsAsOrNoMemory, ReturnsOrNoMemory};
ghost use Rattle.gimli_dwarf.specs.DwarfFiles.{supplement};
ghost use Rattle.gimli_dwarf.specs.AttributeValues.{raw_value_of, raw_attribute_of};
ghost use Rattle.gimli_dwarf.specs.EntryViews.{raw_attributes};
ghost use Rattle.addr2line_names.specs.EntryReferences.{referred_entry, units_in, entry_among, entry_in_supplement};
ghost use Rattle.addr2line_names.specs.OrderedUnits.{AreInOrder};
ghost use Rattle.addr2line_names.specs.FunctionNames.{name_by_reference, name_of_attribute, name_with, name_of, most_references};

use crate::attributes::{is_linkage_name, is_name, is_reference};
use crate::entry::ReferredEntry;
use crate::file::DebugFile;
use crate::holder::{HasUnit, HoldingUnit};
use crate::naming::EntryNaming;
use crate::references::SectionUnits;
use gimli_dwarf::{Attribute, AttributeValue, DebugInfoOffset, Error, Reader, ReaderOffset, Unit};
use std::marker::Model;

// A chain has at most this number of references.
const MOST_REFERENCES: u32 = 16;

/// The units among which names are looked for: those of the main file, and those of its supplement.
#[derive(Drop)]
pub struct KnownUnits<'a, R: Reader, U: HasUnit<R>> {
    units: SectionUnits<'a, R, U>,
    supplement_units: SectionUnits<'a, R, Unit<R>>,
}

impl<'a, R: Reader, U: HasUnit<R>> Model for KnownUnits<'a, R, U> {
    ghost use Rattle.addr2line_names.specs.EntryReferences.{KnownUnits as Known};

    ghost Value = { Known };

    ghost view = { λ n. record { units = n.units; supplement_units = n.supplement_units } };
}

impl<'a, R: Reader, U: HasUnit<R>> KnownUnits<'a, R, U> {
    /// Units in the order of their offsets, as a section has them. A reference by an offset of it
    /// is followed by a bisection. One into a unit whose declarations aren't kept yet is out of
    /// memory: once they are, it is followed.
    pub fn in_order(units: &'a [U], supplement_units: &'a [Unit<R>]) -> Self
        requires units { AreInOrder (map U.facts units.now) }
        requires supplement { AreInOrder supplement_units.now }
        ensures units { result.units ≡ map U.facts units.now }
        ensures supplement { result.supplement_units ≡ supplement_units.now }
    {
        KnownUnits {
            units: SectionUnits::in_order(units),
            supplement_units: SectionUnits::in_order(supplement_units),
        }
    }

    // The entry at an offset of the section of a file's units. An entry of a split file refers to
    // none in this way.
    fn entry_in_file(
        &self,
        holder: &HoldingUnit<'a, R>,
        offset: DebugInfoOffset<R::Offset>,
    ) -> Result<ReferredEntry<'a, R>, Error>
        ensures { ReturnsOrNoMemory result
            (entry_among holder.now.file holder.now.unit.file (units_in holder.now.file self.now)
            (R.Offset.count offset.0)) }
    {
        let file = holder.file;
        let dwarf = holder.dwarf();
        match file {
            DebugFile::Primary => self.units.entry_at(file, dwarf, offset),
            DebugFile::Supplementary => self.supplement_units.entry_at(file, dwarf, offset),
            DebugFile::Dwo => Err(Error::NoEntryAtGivenOffset(offset.0.into_u64())),
        }
    }

    // The entry at an offset of the section of the supplement's units; none where the entry's file
    // has no supplement.
    fn entry_in_supplement(
        &self,
        holder: &HoldingUnit<'a, R>,
        offset: DebugInfoOffset<R::Offset>,
    ) -> Result<Option<ReferredEntry<'a, R>>, Error>
        ensures { ReturnsAsOrNoMemory (option_map (λ e. e)) result
            (entry_in_supplement self.now (R.Offset.count offset.0)
            (supplement holder.now.unit.file)) }
    {
        let unit = &holder.unit;
        let dwarf = unit.dwarf;
        match dwarf.sup() {
            Some(sup) => {
                let file = DebugFile::Supplementary;
                Ok(Some(self.supplement_units.entry_at(file, sup, offset)?))
            }
            None => Ok(None),
        }
    }

    // The entry that a value refers to, if it is a reference.
    fn referred_entry(
        &self,
        holder: &HoldingUnit<'a, R>,
        value: &AttributeValue<R>,
    ) -> Result<Option<ReferredEntry<'a, R>>, Error>
        ensures { ReturnsAsOrNoMemory (option_map (λ e. e)) result
            (referred_entry self.now holder.now (raw_value_of R.view R.Offset.count value.now)) }
    {
        match value {
            AttributeValue::UnitRef(offset) => Ok(Some(ReferredEntry {
                holder: holder.same_unit(),
                offset: *offset,
            })),
            AttributeValue::DebugInfoRef(offset) => Ok(Some(self.entry_in_file(holder, *offset)?)),
            AttributeValue::DebugInfoRefSup(offset) => self.entry_in_supplement(holder, *offset),
            _ => Ok(None),
        }
    }

    // The name that a value leads to by at most a number of references.
    fn name_by_reference(
        &self,
        holder: &HoldingUnit<'a, R>,
        value: &AttributeValue<R>,
        left: u32,
    ) -> Result<Option<R>, Error>
        ensures { ReturnsAsOrNoMemory (option_map R.view) result
            (name_by_reference self.now left holder.now
            (raw_value_of R.view R.Offset.count value.now)) }
    {
        if left == 0 {
            return Ok(None);
        }
        let Some(entry) = self.referred_entry(holder, value)? else {
            return Ok(None);
        };
        match entry.naming()? {
            EntryNaming::ByName(name) => Ok(Some(name)),
            EntryNaming::ByReference(next) => self.name_by_reference(
                &entry.holder,
                &next,
                left - 1,
            ),
            EntryNaming::Nameless => Ok(None),
        }
    }

    // The name by one attribute: one that can be read, or that which a reference leads to.
    fn name_of_attribute(
        &self,
        holder: &HoldingUnit<'a, R>,
        attribute: &Attribute<R>,
    ) -> Result<Option<R>, Error>
        ensures { ReturnsAsOrNoMemory (option_map R.view) result
            (name_of_attribute holder.now
            (name_by_reference self.now most_references holder.now)
            (raw_attribute_of R.view R.Offset.count attribute.now)) }
    {
        let name = attribute.name();
        if is_linkage_name(name) || is_name(name) {
            holder.text(attribute)
        } else if is_reference(name) {
            self.name_by_reference(holder, &attribute.value()?, MOST_REFERENCES)
        } else {
            Ok(None)
        }
    }

    /// The name by those attributes of an entry which gave this one, or none, and one more: a later
    /// linkage name that can be read counts in place of an earlier name, and nothing else does. At
    /// most 16 references are followed one after the other; an error there is the result.
    pub fn name_with(
        &self,
        holder: &HoldingUnit<'a, R>,
        found: Option<R>,
        attribute: &Attribute<R>,
    ) -> Result<Option<R>, Error>
        ensures { ReturnsAsOrNoMemory (option_map R.view) result
            (name_with holder.now
            (name_by_reference self.now most_references holder.now)
            (option_map R.view found) (raw_attribute_of R.view R.Offset.count attribute.now)) }
    {
        if is_linkage_name(attribute.name()) {
            Ok(holder.text(attribute)?.or(found))
        } else {
            match found {
                Some(name) => Ok(Some(name)),
                None => self.name_of_attribute(holder, attribute),
            }
        }
    }

    /// The name of a function or an inlined call whose entry has these attributes: the last linkage
    /// name that can be read, or else the first name that its names and references give, in their
    /// order. A reference is followed where no name is before it; an error there is the result. At
    /// most 16 references are followed one after the other.
    pub fn name_of(
        &self,
        holder: &HoldingUnit<'a, R>,
        attributes: &[Attribute<R>],
    ) -> Result<Option<R>, Error>
        ensures { ReturnsAsOrNoMemory (option_map R.view) result
            (name_of self.now holder.now
            (raw_attributes R.view R.Offset.count attributes.now)) }
    {
        let mut found = None;
        for attribute in attributes {
            found = self.name_with(holder, found, attribute)?;
        }
        Ok(found)
    }
}
