//! Abbreviations, strings and addresses (DWARF 5, 7.5.3, 7.26 and 7.27).

use crate::answer::Answer;
use crate::case::Case;
use gimli_core::{
    Abbreviation, Abbreviations, AddrHeader, AttributeSpecification, DebugAbbrev,
    DebugAbbrevOffset, DebugAddr, DebugAddrBase, DebugAddrIndex, DebugLineStr, DebugLineStrOffset,
    DebugLocListsBase, DebugRngListsBase, DebugStr, DebugStrOffset, DebugStrOffsets,
    DebugStrOffsetsBase, DebugStrOffsetsIndex, DefaultBase, DwForm, DwarfFileType, Error,
    OwnedAbbreviation, Reader, ReaderOffset, Section,
};
use std::alloc::Global;

/// Readers of the sections of a question.
#[derive(Drop)]
pub struct Sections<R: Reader> {
    pub first: R,
    pub second: R,
    pub third: R,
}

/// Answers a question about one of these sections.
pub fn answer<R: Reader>(alloc: Global, case: &Case, sections: Sections<R>, out: &mut Answer) {
    let section = sections.first;
    match case.operation.as_str() {
        "abbreviations" => abbreviations(table(alloc, section, case.offset()), out),
        "attribute_at" => attribute_at(case, table(alloc, section, case.offset()), out),
        "check_abbreviations" => check(alloc, case, &DebugAbbrev::from(section), out),
        "same_abbreviation" => same_abbreviation(alloc, section, sections.second, out),
        "find_abbreviation" => find_abbreviation(alloc, case, &DebugAbbrev::from(section), out),
        "table_of_one" => table_of_one(alloc, case, &DebugAbbrev::from(section), out),
        "string" => string(case, &DebugStr::from(section), out),
        "line_string" => line_string(case, &DebugLineStr::from(section), out),
        "string_offset" => string_offset(case, &DebugStrOffsets::from(section), out),
        "address_at" => address_at(case, &DebugAddr::from(section), out),
        _ => address_sets(section, out),
    }
}

/// The table at an offset.
pub fn table<R: Reader>(
    alloc: Global,
    section: R,
    offset: Result<R::Offset, Error>,
) -> Result<Abbreviations, Error> {
    match offset {
        Ok(offset) => DebugAbbrev::from(section).abbreviations(alloc, DebugAbbrevOffset(offset)),
        Err(error) => Err(error),
    }
}

/// The declarations of a table, or its refusal.
pub fn abbreviations(table: Result<Abbreviations, Error>, out: &mut Answer) {
    match table {
        Ok(table) => declarations(&table, out),
        Err(error) => out.refuse(error),
    }
}

/// The declarations of the first codes.
pub fn declarations(table: &Abbreviations, out: &mut Answer) {
    for code in 0..8 {
        if let Some(found) = table.get(code) {
            declaration(&found, out);
        }
    }
}

fn declaration(found: &Abbreviation<'_>, out: &mut Answer) {
    out.text("[");
    out.word(&found.code());
    out.code(&found.tag());
    out.text_if(found.has_children(), " children");
    for attribute in found.attributes() {
        out.text(", ");
        specification(attribute, out);
    }
    out.text("]");
}

fn specification(attribute: &AttributeSpecification, out: &mut Answer) {
    out.word(&attribute.name());
    out.code(&attribute.form());
    if let Some(constant) = attribute.implicit_const_value() {
        out.text(" ");
        out.value(&constant);
    }
}

// How many attributes the declaration of code 1 has, and the one at the index.
fn attribute_at(case: &Case, table: Result<Abbreviations, Error>, out: &mut Answer) {
    match table {
        Ok(table) => {
            if let Some(found) = table.get(1) {
                let attributes = found.attributes();
                out.word(&attributes.len());
                if let Some(attribute) = attributes.get(case.index()) {
                    specification(attribute, out);
                }
            }
        }
        Err(error) => out.refuse(error),
    }
}

// Whether the table at the offset can be read.
fn check<R: Reader>(alloc: Global, case: &Case, section: &DebugAbbrev<R>, out: &mut Answer) {
    match case.offset() {
        Ok(offset) => out.check(section.check_abbreviations(alloc, DebugAbbrevOffset(offset))),
        Err(error) => out.refuse(error),
    }
}

// Whether the declarations of code 1 in two tables are equal.
fn same_abbreviation<R: Reader>(alloc: Global, one: R, other: R, out: &mut Answer) {
    let start = R::Offset::from_u8(0);
    let one = table(alloc, one, Ok(start));
    let other = table(alloc, other, Ok(start));
    match (one, other) {
        (Ok(one), Ok(other)) => out.value(&(one.get(1) == other.get(1))),
        (Err(error), _) => out.refuse(error),
        (_, Err(error)) => out.refuse(error),
    }
}

// The declaration whose code is the index, from the table at the offset.
fn find_abbreviation<R: Reader>(
    alloc: Global,
    case: &Case,
    section: &DebugAbbrev<R>,
    out: &mut Answer,
) {
    match found(alloc, case, section) {
        Ok(Some(found)) => declaration(&found.as_abbreviation(), out),
        Ok(None) => out.text("none"),
        Err(error) => out.refuse(error),
    }
}

// The table of that declaration alone, or of none.
fn table_of_one<R: Reader>(alloc: Global, case: &Case, section: &DebugAbbrev<R>, out: &mut Answer) {
    let table = match found(alloc, case, section) {
        Ok(Some(found)) => Abbreviations::of_one(alloc, found),
        Ok(None) => Abbreviations::empty(alloc),
        Err(error) => Err(error),
    };
    abbreviations(table, out);
}

fn found<R: Reader>(
    alloc: Global,
    case: &Case,
    section: &DebugAbbrev<R>,
) -> Result<Option<OwnedAbbreviation>, Error> {
    match case.offset() {
        Ok(offset) => section.find_abbreviation(alloc, DebugAbbrevOffset(offset), case.index),
        Err(error) => Err(error),
    }
}

/// The names of a section that split files have too, and of one that they don't.
pub fn names<R: Reader>(out: &mut Answer) {
    out.word(&DebugStrOffsets::<R>::section_name());
    out.word(&DebugStrOffsets::<R>::dwo_section_name());
    out.word(&DebugAddr::<R>::section_name());
    out.code(&DebugAddr::<R>::dwo_section_name());
}

/// The bytes of the values of the forms, where the encoding decides them.
pub fn widths(case: &Case, out: &mut Answer) {
    let encoding = case.encoding();
    for form in case.forms.iter() {
        let DwForm(number) = *form;
        out.text("[");
        out.word(&number);
        out.code(&case.specification(*form).size(encoding));
        out.text("]");
    }
}

/// The string at the offset.
pub fn string<R: Reader>(case: &Case, section: &DebugStr<R>, out: &mut Answer) {
    match case.offset() {
        Ok(offset) => out.text_of(section.get_str(DebugStrOffset(offset))),
        Err(error) => out.refuse(error),
    }
}

/// The same in the other section of strings.
pub fn line_string<R: Reader>(case: &Case, section: &DebugLineStr<R>, out: &mut Answer) {
    match case.offset() {
        Ok(offset) => out.text_of(section.get_str(DebugLineStrOffset(offset))),
        Err(error) => out.refuse(error),
    }
}

/// The offset of a string, after the base and by the index.
pub fn string_offset<R: Reader>(case: &Case, section: &DebugStrOffsets<R>, out: &mut Answer) {
    match case.base_and_index() {
        Ok((base, index)) => {
            let (base, index) = (DebugStrOffsetsBase(base), DebugStrOffsetsIndex(index));
            match section.get_str_offset(case.format, base, index) {
                Ok(offset) => out.value(&offset.0.into_u64()),
                Err(error) => out.refuse(error),
            }
        }
        Err(error) => out.refuse(error),
    }
}

/// An address, after the base and by the index.
pub fn address_at<R: Reader>(case: &Case, section: &DebugAddr<R>, out: &mut Answer) {
    match case.base_and_index() {
        Ok((base, index)) => {
            let (base, index) = (DebugAddrBase(base), DebugAddrIndex(index));
            match section.get_address(case.address_size, base, index) {
                Ok(address) => out.hex(address),
                Err(error) => out.refuse(error),
            }
        }
        Err(error) => out.refuse(error),
    }
}

// The sets, one after the other, with a refusal in its place.
fn address_sets<R: Reader>(section: R, out: &mut Answer) {
    match DebugAddr::from(section).headers() {
        Ok(mut headers) => {
            for _ in 0..20 {
                match headers.next() {
                    Ok(Some(set)) => address_set(&set, out),
                    Ok(None) => break,
                    Err(error) => out.refuse(error),
                }
            }
        }
        Err(error) => out.refuse(error),
    }
}

fn address_set<R: Reader>(set: &AddrHeader<R>, out: &mut Answer) {
    out.text("[");
    out.word(&set.offset().0);
    out.word(&set.length());
    out.code(&set.encoding());
    out.text(":");
    addresses(set, out);
    out.text("]");
}

fn addresses<R: Reader>(set: &AddrHeader<R>, out: &mut Answer) {
    match set.entries() {
        Ok(mut entries) => {
            for _ in 0..20 {
                match entries.next() {
                    Ok(Some(address)) => {
                        out.text(" ");
                        out.hex(address);
                    }
                    Ok(None) => break,
                    Err(error) => {
                        out.text(" ");
                        out.refuse(error);
                    }
                }
            }
        }
        Err(error) => out.refuse(error),
    }
}

/// Where the string offsets, range lists and location lists of a unit without bases begin.
pub fn default_bases(case: &Case, out: &mut Answer) {
    let encoding = case.encoding();
    let file = if case.is_split {
        DwarfFileType::Dwo
    } else {
        DwarfFileType::Main
    };
    let strings = DebugStrOffsetsBase::<usize>::default_for_encoding_and_file(encoding, file);
    let ranges = DebugRngListsBase::<usize>::default_for_encoding_and_file(encoding, file);
    let locations = DebugLocListsBase::<usize>::default_for_encoding_and_file(encoding, file);
    out.word(&strings.0);
    out.word(&ranges.0);
    out.code(&locations.0);
}
