//! An entry of a unit with its attributes.

ghost use Rattle.std.specs.Prelude.{◌≡◌, ◌==◌, pos, Ok, IsOk, IsTrue, is_some, option_map};
ghost use Rattle.gimli_core_base.specs.Calls.{ReturnsAsOrNoMemory};
ghost use Rattle.gimli_units_forms.specs.AttributeMeanings.{value_under};
ghost use Rattle.gimli_units_forms.specs.AttributeValues.{raw_attribute_of, raw_value_of};
ghost use Rattle.gimli_units_entries.specs.EntryRows.{null_at};
ghost use Rattle.gimli_units_entries.specs.EntryViews.{attribute_named, entry_of, raw_attributes};

use gimli_core_base::error::Error;
use gimli_core_base::{DwAt, DwTag, ReaderOffset};
use gimli_units_forms::{Attribute, AttributeValue};
use gimli_units_headers::{Reader, UnitOffset};
use std::alloc::Global;

/// An entry: its place, its tag and its attributes (DWARF 5, 2.1). A null entry has the tag 0.
pub struct DebuggingInformationEntry<R: Reader> {
    pub(crate) offset: UnitOffset<R::Offset>,
    pub(crate) depth: isize,
    pub(crate) tag: DwTag,
    pub(crate) has_children: bool,
    pub(crate) attrs: Vec<Attribute<R>>,
}

impl<R: Reader> Drop for DebuggingInformationEntry<R> {
    fn drop(self) {
        let DebuggingInformationEntry {
            offset: _,
            depth: _,
            tag: _,
            has_children: _,
            attrs: _,
        } = self;
    }
}

impl<R: Reader> DebuggingInformationEntry<R> {
    /// A null entry at the offset 0. Takes no memory.
    pub fn null(alloc: Global) -> Self
        ensures { entry_of R.view R.Offset.count result ≡ null_at 0 (pos 0) }
    {
        DebuggingInformationEntry {
            offset: UnitOffset(R::Offset::from_u8(0)),
            depth: 0,
            tag: DwTag(0),
            has_children: false,
            attrs: Vec::new(alloc),
        }
    }

    /// Whether the entry is a null entry, which ends the children of an entry.
    pub fn is_null(&self) -> bool
        ensures { result ≡ ((entry_of R.view R.Offset.count self.now).tag == 0) }
    {
        self.tag.0 == 0
    }

    /// The depth below the entry where the walk began.
    pub fn depth(&self) -> isize
        ensures { result ≡ (entry_of R.view R.Offset.count self.now).depth }
    {
        self.depth
    }

    /// The offset in the unit.
    pub fn offset(&self) -> UnitOffset<R::Offset>
        ensures { R.Offset.count result.0 ≡ (entry_of R.view R.Offset.count self.now).offset }
    {
        self.offset
    }

    pub fn tag(&self) -> DwTag
        ensures { result.0 ≡ (entry_of R.view R.Offset.count self.now).tag }
    {
        self.tag
    }

    /// Whether children follow, up to a null entry.
    pub fn has_children(&self) -> bool
        ensures { result ≡ (entry_of R.view R.Offset.count self.now).has_children }
    {
        self.has_children
    }

    /// The attributes, in order.
    pub fn attrs(&self) -> &[Attribute<R>]
        ensures { raw_attributes R.view R.Offset.count result.now
            ≡ (entry_of R.view R.Offset.count self.now).attributes }
    {
        self.attrs.as_slice()
    }

    // Makes it the null entry at a place.
    pub(crate) fn set_null(&mut self, offset: UnitOffset<R::Offset>, depth: isize)
        ensures { entry_of R.view R.Offset.count self.new
            ≡ null_at (R.Offset.count offset.0) depth }
    {
        self.offset = offset;
        self.depth = depth;
        self.tag = DwTag(0);
        self.has_children = false;
        self.attrs.clear();
    }
}

impl<R: Reader> DebuggingInformationEntry<R> {
    /// The first attribute of a name.
    pub fn attr(&self, name: DwAt) -> Option<&Attribute<R>>
        ensures { option_map (λ a. raw_attribute_of R.view R.Offset.count a.now) result
            ≡ attribute_named name.0 (entry_of R.view R.Offset.count self.now) }
    {
        self.attrs.iter().find(|attribute| attribute.name() == name)
    }

    /// Whether there is an attribute of the name.
    pub fn has_attr(&self, name: DwAt) -> bool
        ensures { result ≡ is_some
            (attribute_named name.0 (entry_of R.view R.Offset.count self.now)) }
    {
        self.attr(name).is_some()
    }

    /// A copy of the value of the first attribute of a name, as its form gives it.
    pub fn attr_value_raw(&self, name: DwAt) -> Result<Option<AttributeValue<R>>, Error>
        ensures value { ReturnsAsOrNoMemory (option_map (raw_value_of R.view R.Offset.count)) result
            (Ok
            (option_map (λ a. a.value)
            (attribute_named name.0 (entry_of R.view R.Offset.count self.now)))) }
        ensures free { IsTrue R.copies_freely → IsOk result }
    {
        match self.attr(name) {
            Some(attribute) => Ok(Some(attribute.raw_value()?)),
            None => Ok(None),
        }
    }

    /// The value of the first attribute of a name, interpreted under that name; where it doesn't
    /// fit the name, a copy of the value as its form gives it.
    pub fn attr_value(&self, name: DwAt) -> Result<Option<AttributeValue<R>>, Error>
        ensures value { ReturnsAsOrNoMemory (option_map (raw_value_of R.view R.Offset.count)) result
            (Ok
            (option_map (λ a. value_under a.name a.value)
            (attribute_named name.0 (entry_of R.view R.Offset.count self.now)))) }
        ensures free { IsTrue R.copies_freely → IsOk result }
    {
        match self.attr(name) {
            Some(attribute) => Ok(Some(attribute.value()?)),
            None => Ok(None),
        }
    }
}
