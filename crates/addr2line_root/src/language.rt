//! The language of a unit (DWARF 5, 3.1.1).

ghost use Rattle.std.specs.Prelude.{◌≡◌, Ok, option_map};
ghost use Rattle.addr2line_ranges.specs.Calls.{ReturnsAsOrNoMemory};
ghost use Rattle.addr2line_ranges.specs.AttributeValues.{raw_value_of, raw_attribute_of};
ghost use Rattle.addr2line_ranges.specs.EntryViews.{raw_attributes};
ghost use Rattle.addr2line_ranges.specs.UnitFacts.{value_of_kind};
ghost use Rattle.addr2line_ranges.specs.UnitRanges.{language_of, is_language, language_in};

use addr2line_ranges::{Attribute, AttributeValue, DW_AT_language, DwLang, Error, Reader};

// The language that a value is.
fn language_in_value<R: Reader>(value: &AttributeValue<R>) -> Option<DwLang>
    ensures { option_map (λ l. l.0) result
        ≡ language_of (raw_value_of R.view R.Offset.count value.now) }
{
    match value {
        AttributeValue::Language(language) => Some(*language),
        _ => None,
    }
}

// The language that an attribute names, if it is one that does.
fn language_in_attribute<R: Reader>(attribute: &Attribute<R>) -> Result<Option<DwLang>, Error>
    ensures { ReturnsAsOrNoMemory (option_map (λ l. l.0)) result
        (Ok (value_of_kind language_of is_language
        (raw_attribute_of R.view R.Offset.count attribute.now))) }
{
    if attribute.name() == DW_AT_language {
        Ok(language_in_value(&attribute.value()?))
    } else {
        Ok(None)
    }
}

/// The language that the attributes of a root name, the last where they name several. Takes memory
/// only where copies of readers do.
pub fn language_of<R: Reader>(attributes: &[Attribute<R>]) -> Result<Option<DwLang>, Error>
    ensures { ReturnsAsOrNoMemory (option_map (λ l. l.0)) result
        (Ok (language_in (raw_attributes R.view R.Offset.count attributes.now))) }
{
    let mut found = None;
    for attribute in attributes {
        found = language_in_attribute(attribute)?.or(found);
    }
    Ok(found)
}
