//! Attributes (DWARF 5, 7.5.4 to 7.5.6).

use crate::answer::Answer;
use crate::case::Case;
use crate::sections::Sections;
use gimli_core::{DebugStr, DwForm, Error, Reader, ReaderOffset};
use gimli_units::{Attribute, AttributeValue, parse_attribute, skip_attributes};
use std::alloc::Global;

/// Answers a question about attributes.
pub fn answer<R: Reader>(alloc: Global, case: &Case, sections: Sections<R>, out: &mut Answer) {
    let mut reader = sections.first;
    match case.operation.as_str() {
        "attributes" => attributes(case, &mut reader, out),
        "skip_attributes" => after_skipping(alloc, case, &mut reader, out),
        _ => match first(case, &mut reader) {
            Ok(attribute) => parts(case, &attribute, sections.second, out),
            Err(error) => out.refuse(error),
        },
    }
}

fn parts<R: Reader>(case: &Case, attribute: &Attribute<R>, strings: R, out: &mut Answer) {
    match case.operation.as_str() {
        "attribute_numbers" => numbers(attribute, out),
        "attribute_offset" => out.code(&attribute.offset_value()),
        "attribute_string" => string(attribute, strings, out),
        _ => expression(attribute, out),
    }
}

// The attribute of the first form.
fn first<R: Reader>(case: &Case, reader: &mut R) -> Result<Attribute<R>, Error> {
    let form = match case.forms.first() {
        Some(form) => *form,
        None => DwForm(0),
    };
    parse_attribute(reader, case.encoding(), case.specification(form))
}

// The attributes of the forms, and the bytes left.
fn attributes<R: Reader>(case: &Case, reader: &mut R, out: &mut Answer) {
    for form in case.forms.iter() {
        match parse_attribute(reader, case.encoding(), case.specification(*form)) {
            Ok(attribute) => {
                value_of(&attribute.raw_value(), out);
                value_of(&attribute.value(), out);
            }
            Err(error) => {
                out.refuse(error);
                return;
            }
        }
    }
    out.text(" left ");
    out.bytes(reader);
}

/// A value, or why there is none.
pub fn value_of<R: Reader>(found: &Result<AttributeValue<R>, Error>, out: &mut Answer) {
    match found {
        Ok(found) => value(found, out),
        Err(error) => out.refuse(*error),
    }
}

/// A value that an entry may have.
pub fn value_if_any<R: Reader>(found: &Result<Option<AttributeValue<R>>, Error>, out: &mut Answer) {
    match found {
        Ok(Some(found)) => value(found, out),
        Ok(None) => {}
        Err(error) => out.refuse(*error),
    }
}

/// A value: its kind, and its number, or how many bytes it has and its text.
pub fn value<R: Reader>(value: &AttributeValue<R>, out: &mut Answer) {
    out.text("[");
    match value {
        AttributeValue::String(text) => {
            kind("String", text.len().into_u64(), out);
            out.text(" ");
            out.lossy(text);
        }
        AttributeValue::Block(bytes) => kind("Block", bytes.len().into_u64(), out),
        AttributeValue::Exprloc(expression) => {
            kind("Exprloc", expression.0.len().into_u64(), out);
        }
        AttributeValue::Sdata(number) => {
            out.text("Sdata ");
            out.value(number);
        }
        _ => number_of(value, out),
    }
    out.text("]");
}

fn kind(kind: &str, number: u64, out: &mut Answer) {
    out.text(kind);
    out.text(" ");
    out.value(&number);
}

fn number_of<R: Reader>(value: &AttributeValue<R>, out: &mut Answer) {
    match value {
        AttributeValue::Addr(address) => kind("Addr", *address, out),
        AttributeValue::Data1(number) => kind("Data1", u64::from(*number), out),
        AttributeValue::Data2(number) => kind("Data2", u64::from(*number), out),
        AttributeValue::Data4(number) => kind("Data4", u64::from(*number), out),
        AttributeValue::Data8(number) => kind("Data8", *number, out),
        AttributeValue::Udata(number) => kind("Udata", *number, out),
        AttributeValue::Flag(is_set) => kind("Flag", u64::from(*is_set), out),
        AttributeValue::FileIndex(number) => kind("FileIndex", *number, out),
        AttributeValue::Language(language) => kind("Language", u64::from(language.0), out),
        _ => offset_of(value, out),
    }
}

fn offset_of<R: Reader>(value: &AttributeValue<R>, out: &mut Answer) {
    match value {
        AttributeValue::SecOffset(to) => kind("SecOffset", to.into_u64(), out),
        AttributeValue::UnitRef(to) => kind("UnitRef", to.0.into_u64(), out),
        AttributeValue::DebugInfoRef(to) => kind("DebugInfoRef", to.0.into_u64(), out),
        AttributeValue::DebugLineRef(to) => kind("DebugLineRef", to.0.into_u64(), out),
        AttributeValue::RangeListsRef(to) => kind("RangeListsRef", to.0.into_u64(), out),
        AttributeValue::DebugAddrIndex(to) => kind("DebugAddrIndex", to.0.into_u64(), out),
        _ => string_of(value, out),
    }
}

fn string_of<R: Reader>(value: &AttributeValue<R>, out: &mut Answer) {
    match value {
        AttributeValue::DebugStrRef(to) => kind("DebugStrRef", to.0.into_u64(), out),
        AttributeValue::DebugStrRefSup(to) => kind("DebugStrRefSup", to.0.into_u64(), out),
        AttributeValue::DebugStrOffsetsBase(to) => {
            kind("DebugStrOffsetsBase", to.0.into_u64(), out);
        }
        AttributeValue::DebugStrOffsetsIndex(to) => {
            kind("DebugStrOffsetsIndex", to.0.into_u64(), out);
        }
        AttributeValue::DebugLineStrRef(to) => kind("DebugLineStrRef", to.0.into_u64(), out),
        _ => kind("other", 0, out),
    }
}

// The attribute as a number of 8, 16 and 64 bits, and with a sign.
fn numbers<R: Reader>(attribute: &Attribute<R>, out: &mut Answer) {
    out.word(&attribute.u8_value());
    out.word(&attribute.u16_value());
    out.word(&attribute.udata_value());
    out.code(&attribute.sdata_value());
}

// The attribute's text, its own or one of the second section.
fn string<R: Reader>(attribute: &Attribute<R>, strings: R, out: &mut Answer) {
    match attribute.string_value(&DebugStr::from(strings)) {
        Ok(Some(text)) => out.lossy(&text),
        Ok(None) => out.text("none"),
        Err(error) => out.refuse(error),
    }
}

fn expression<R: Reader>(attribute: &Attribute<R>, out: &mut Answer) {
    match attribute.exprloc_value() {
        Ok(Some(expression)) => out.bytes(&expression.0),
        Ok(None) => out.text("none"),
        Err(error) => out.refuse(error),
    }
}

// The bytes left after the attributes of the forms are skipped, and a refusal.
fn after_skipping<R: Reader>(alloc: Global, case: &Case, reader: &mut R, out: &mut Answer) {
    let outcome = match case.specifications(alloc) {
        Ok(all) => skip_attributes(reader, case.encoding(), &all),
        Err(error) => Err(error),
    };
    out.text("left ");
    out.bytes(reader);
    if let Err(error) = outcome {
        out.text(" ");
        out.refuse(error);
    }
}
