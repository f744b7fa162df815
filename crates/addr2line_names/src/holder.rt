//! The units that hold entries.

ghost use Rattle.std.specs.Prelude.{◌≡◌, Ok, IfSome, option_map};
ghost use Rattle.gimli_dwarf.specs.Calls.{ReturnsAsOrNoMemory};
ghost use Rattle.gimli_dwarf.specs.AttributeMeanings.{value_under};
ghost use Rattle.gimli_dwarf.specs.AttributeValues.{raw_attribute_of, raw_value_of};
ghost use Rattle.gimli_dwarf.specs.UnitFacts.{UnitFacts, value_of_kind};
ghost use Rattle.addr2line_names.specs.EntryNamings.{is_linkage_name, text_of};

use crate::attributes::is_linkage_name;
use crate::file::DebugFile;
use gimli_dwarf::{
    Attribute, AttributeValue, Dwarf, Error, Reader, ReaderOffset, Unit, UnitHeader, UnitRef,
};
use std::marker::Model;

/// A value with a unit. A list of them can be searched for the unit that a reference leads to.
pub trait HasUnit<R: Reader> {
    ghost facts: { Self → UnitFacts };

    /// The header of the unit.
    fn header(&self) -> &UnitHeader<R>
        ensures { result.now ≡ (facts self.now).header };

    /// The unit; none where its declarations aren't kept yet.
    fn unit(&self) -> Option<&Unit<R>>
        ensures { IfSome result (λ u. u.now ≡ facts self.now) };
}

impl<R: Reader> HasUnit<R> for Unit<R> {
    ghost facts = { λ u. u };

    fn header(&self) -> &UnitHeader<R> {
        &self.header
    }

    fn unit(&self) -> Option<&Unit<R>> {
        Some(self)
    }
}

/// The unit that holds an entry, and which of the files it is in.
#[derive(Drop)]
pub struct HoldingUnit<'a, R: Reader> {
    pub file: DebugFile,
    pub unit: UnitRef<'a, R>,
}

impl<'a, R: Reader> Model for HoldingUnit<'a, R> {
    ghost use Rattle.addr2line_names.specs.EntryReferences.{HoldingUnit as Holder};

    ghost Value = { Holder };

    ghost view = { λ h. record { file = h.file; unit = h.unit } };
}

impl<'a, R: Reader> HoldingUnit<'a, R> {
    pub fn new(file: DebugFile, unit: UnitRef<'a, R>) -> Self
        ensures { result ≡ record { file = file; unit = unit.entry } }
    {
        HoldingUnit { file, unit }
    }

    /// The same unit in the same file.
    pub(crate) fn same_unit(&self) -> HoldingUnit<'a, R>
        ensures { result ≡ self.now }
    {
        let unit = &self.unit;
        HoldingUnit {
            file: self.file,
            unit: UnitRef::new(unit.dwarf, unit.unit),
        }
    }

    /// The sections of its file.
    pub(crate) fn dwarf(&self) -> &'a Dwarf<R>
        ensures { result.now.file ≡ self.now.unit.file }
    {
        let unit = &self.unit;
        unit.dwarf
    }

    // The text of a value of an attribute of one of the unit's entries, where it can be read.
    fn text_of(&self, value: AttributeValue<R>) -> Result<Option<R>, Error>
        ensures { ReturnsAsOrNoMemory (option_map R.view) result
            (Ok (text_of self.now (raw_value_of R.view R.Offset.count value))) }
    {
        match self.unit.attr_string(value) {
            Ok(text) => Ok(Some(text)),
            Err(Error::Memory) => Err(Error::Memory),
            Err(_) => Ok(None),
        }
    }

    /// The text of an attribute of one of the unit's entries, where it can be read. The only error
    /// is out of memory.
    pub(crate) fn text(&self, attribute: &Attribute<R>) -> Result<Option<R>, Error>
        ensures { let a = raw_attribute_of R.view R.Offset.count attribute.now in
            ReturnsAsOrNoMemory (option_map R.view) result
            (Ok (text_of self.now (value_under a.name a.value))) }
    {
        self.text_of(attribute.value()?)
    }

    /// The linkage name in an attribute, if it is one that can be read.
    pub(crate) fn linkage_name(&self, attribute: &Attribute<R>) -> Result<Option<R>, Error>
        ensures { ReturnsAsOrNoMemory (option_map R.view) result
            (Ok (value_of_kind (text_of self.now) is_linkage_name
            (raw_attribute_of R.view R.Offset.count attribute.now))) }
    {
        if is_linkage_name(attribute.name()) {
            self.text(attribute)
        } else {
            Ok(None)
        }
    }
}
