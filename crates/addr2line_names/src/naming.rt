//! The name that an entry has by itself, or the reference that leads on to it.

ghost use Rattle.std.specs.Prelude.{Ok, map, option_map};
ghost use Rattle.gimli_dwarf.specs.Calls.{ReturnsAsOrNoMemory};
ghost use Rattle.gimli_dwarf.specs.AbbreviationViews.{attribute_view};
ghost use Rattle.gimli_dwarf.specs.AttributeValues.{raw_attribute_of};
ghost use Rattle.gimli_dwarf.specs.UnitFacts.{is_name, value_of_kind, any_value};
ghost use Rattle.addr2line_names.specs.EntryNamings.{is_reference, text_of, attributes_from, reference_or, naming_in, naming_at, naming_with};
ghost use Rattle.addr2line_names.specs.NamingView.{naming_view};

use crate::attributes::{is_name, is_reference};
use crate::entry::ReferredEntry;
use crate::holder::HoldingUnit;
use crate::passing::pass;
use gimli_dwarf::{
    Attribute, AttributeSpecification, AttributeValue, EntriesRaw, Error, Reader, ReaderOffset,
};

/// An entry has a name, or the value of a reference to follow, or neither.
#[derive(Drop)]
pub(crate) enum EntryNaming<R: Reader> {
    ByName(R),
    ByReference(AttributeValue<R>),
    Nameless,
}

impl<'a, R: Reader> HoldingUnit<'a, R> {
    // The name in an attribute, if it is one that can be read.
    fn plain_name(&self, attribute: &Attribute<R>) -> Result<Option<R>, Error>
        ensures { ReturnsAsOrNoMemory (option_map R.view) result
            (Ok (value_of_kind (text_of self.now) is_name
            (raw_attribute_of R.view R.Offset.count attribute.now))) }
    {
        if is_name(attribute.name()) {
            self.text(attribute)
        } else {
            Ok(None)
        }
    }

    // The naming by some attributes and one more that is no linkage name.
    fn naming_with(
        &self,
        found: EntryNaming<R>,
        attribute: &Attribute<R>,
    ) -> Result<EntryNaming<R>, Error>
        ensures { ReturnsAsOrNoMemory (naming_view R.view R.Offset.count) result
            (Ok (naming_with self.now
            (naming_view R.view R.Offset.count found)
            (raw_attribute_of R.view R.Offset.count attribute.now))) }
    {
        if let Some(name) = self.plain_name(attribute)? {
            return Ok(EntryNaming::ByName(name));
        }
        match found {
            EntryNaming::ByName(name) => Ok(EntryNaming::ByName(name)),
            found => or_reference(found, attribute),
        }
    }

    // The naming by attributes. Nothing is read after a linkage name.
    fn naming_in(
        &self,
        mut entries: EntriesRaw<'_, R>,
        specifications: &[AttributeSpecification],
    ) -> Result<EntryNaming<R>, Error>
        ensures { ReturnsAsOrNoMemory (naming_view R.view R.Offset.count) result
            (naming_in self.now
            (attributes_from R.Offset.limit
            (map attribute_view specifications.now) entries.entry)) }
    {
        let mut found = EntryNaming::Nameless;
        let mut left = pass(&mut entries, specifications)?;
        while let [specification, rest @ ..] = left {
            let attribute = entries.read_attribute(*specification)?;
            if let Some(name) = self.linkage_name(&attribute)? {
                return Ok(EntryNaming::ByName(name));
            }
            found = self.naming_with(found, &attribute)?;
            left = pass(&mut entries, rest)?;
        }
        Ok(found)
    }
}

// The value of a reference, where an attribute is one, or else what those before it give.
fn or_reference<R: Reader>(
    found: EntryNaming<R>,
    attribute: &Attribute<R>,
) -> Result<EntryNaming<R>, Error>
    ensures { ReturnsAsOrNoMemory (naming_view R.view R.Offset.count) result (Ok (reference_or
        (value_of_kind any_value is_reference
        (raw_attribute_of R.view R.Offset.count attribute.now))
        (naming_view R.view R.Offset.count found))) }
{
    if is_reference(attribute.name()) {
        Ok(EntryNaming::ByReference(attribute.value()?))
    } else {
        Ok(found)
    }
}

impl<'a, R: Reader> ReferredEntry<'a, R> {
    /// The naming of the entry, or why it can't be read.
    pub(crate) fn naming(&self) -> Result<EntryNaming<R>, Error>
        ensures { ReturnsAsOrNoMemory (naming_view R.view R.Offset.count) result
            (naming_at self.now) }
    {
        let holder = &self.holder;
        let mut entries = holder.unit.entries_raw(Some(self.offset))?;
        let Some(abbreviation) = entries.read_abbreviation()? else {
            let offset = self.offset.0.into_u64();
            return Err(Error::NoEntryAtGivenOffset(offset));
        };
        holder.naming_in(entries, abbreviation.attributes())
    }
}
