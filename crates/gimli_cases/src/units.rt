//! Headers, address ranges and entries (DWARF 5, 7.5 and 6.1.2).

use crate::answer::Answer;
use crate::attributes;
use crate::case::Case;
use crate::sections::{Sections, table};
use gimli_core::{
    Abbreviations, DW_AT_name, DebugAbbrev, DebugArangesOffset, DwAt, Error, Reader, ReaderOffset,
};
use gimli_units::{
    ArangeEntry, ArangeEntryIter, ArangeHeader, Attribute, DebugAranges, DebugInfo,
    DebugInfoOffset, DebuggingInformationEntry, EntriesRaw, UnitEntries, UnitHeader, UnitOffset,
    entries_raw,
};
use std::alloc::Global;

/// Answers a question about headers and address ranges.
pub fn answer<R: Reader>(case: &Case, section: R, out: &mut Answer) {
    match case.operation.as_str() {
        "units" => units(section, out),
        "unit" => one_unit(&unit(case, &DebugInfo::from(section)), out),
        "size_of_header" => size_of_header(&unit(case, &DebugInfo::from(section)), out),
        "tombstone" => tombstone(case, &unit(case, &DebugInfo::from(section)), out),
        "arange_sets" => arange_sets(section, out),
        "aranges" => aranges(pairs(case, section), out),
        _ => aranges_by_one(pairs(case, section), out),
    }
}

/// Answers a question about entries.
pub fn answer_about_entries<R: Reader>(
    alloc: Global,
    case: &Case,
    sections: Sections<R>,
    out: &mut Answer,
) {
    match case.operation.as_str() {
        "entries" => entries(alloc, first_unit(alloc, sections), out),
        "entries_skipped" => entries_skipped(first_unit(alloc, sections), out),
        "attributes_from" => attributes_from(alloc, case, first_unit(alloc, sections), out),
        "attributes_of_name" => attributes_of_name(alloc, case, first_unit(alloc, sections), out),
        "entry" => one_entry(&entry(alloc, case, sections), out),
        _ => attribute_of_entry(case, entry(alloc, case, sections), out),
    }
}

/// The unit at the offset.
pub fn unit<R: Reader>(case: &Case, section: &DebugInfo<R>) -> Result<UnitHeader<R>, Error> {
    match case.offset() {
        Ok(offset) => section.header_from_offset(DebugInfoOffset(offset)),
        Err(error) => Err(error),
    }
}

// The units, one after the other, with a refusal in its place.
fn units<R: Reader>(section: R, out: &mut Answer) {
    match DebugInfo::from(section).units() {
        Ok(mut units) => {
            for _ in 0..20 {
                match units.next() {
                    Ok(Some(unit)) => header(&unit, out),
                    Ok(None) => break,
                    Err(error) => out.refuse(error),
                }
            }
        }
        Err(error) => out.refuse(error),
    }
}

/// A unit, or why it can't be read.
pub fn one_unit<R: Reader>(unit: &Result<UnitHeader<R>, Error>, out: &mut Answer) {
    match unit {
        Ok(unit) => header(unit, out),
        Err(error) => out.refuse(*error),
    }
}

fn header<R: Reader>(unit: &UnitHeader<R>, out: &mut Answer) {
    out.text("[");
    out.word(&unit.offset().0);
    out.word(&unit.unit_length());
    out.word(&unit.length_including_self());
    out.word(&unit.encoding());
    out.word(&unit.type_());
    out.word(&unit.debug_abbrev_offset().0);
    out.word(&unit.header_size());
    out.word(&unit.root_offset().0);
    out.bytes(unit.entries_reader());
    out.text("]");
}

// The bytes of a unit's header, by its kind and by where its entries begin.
fn size_of_header<R: Reader>(unit: &Result<UnitHeader<R>, Error>, out: &mut Answer) {
    match unit {
        Ok(unit) => {
            out.word(&unit.size_of_header());
            out.code(&unit.header_size());
        }
        Err(error) => out.refuse(*error),
    }
}

fn tombstone<R: Reader>(case: &Case, unit: &Result<UnitHeader<R>, Error>, out: &mut Answer) {
    match unit {
        Ok(unit) => out.value(&unit.is_tombstone_address(case.value)),
        Err(error) => out.refuse(*error),
    }
}

// The sets of address ranges, one after the other, with a refusal in its place.
fn arange_sets<R: Reader>(section: R, out: &mut Answer) {
    match DebugAranges::from(section).headers() {
        Ok(mut sets) => {
            for _ in 0..20 {
                match sets.next() {
                    Ok(Some(set)) => arange_set(&set, out),
                    Ok(None) => break,
                    Err(error) => out.refuse(error),
                }
            }
        }
        Err(error) => out.refuse(error),
    }
}

fn arange_set<R: Reader>(set: &ArangeHeader<R>, out: &mut Answer) {
    out.text("[");
    out.word(&set.offset().0);
    out.word(&set.length());
    out.word(&set.debug_info_offset().0);
    out.code(&set.encoding());
    out.text("]");
}

// The pairs of the set at the offset.
fn pairs<R: Reader>(case: &Case, section: R) -> Result<ArangeEntryIter<R>, Error> {
    match case.offset() {
        Ok(offset) => pairs_at(section, offset),
        Err(error) => Err(error),
    }
}

fn pairs_at<R: Reader>(section: R, offset: R::Offset) -> Result<ArangeEntryIter<R>, Error> {
    match DebugAranges::from(section).header(DebugArangesOffset(offset)) {
        Ok(set) => set.entries(),
        Err(error) => Err(error),
    }
}

// The ranges of a set, with a refusal in its place.
fn aranges<R: Reader>(pairs: Result<ArangeEntryIter<R>, Error>, out: &mut Answer) {
    match pairs {
        Ok(mut pairs) => {
            for _ in 0..20 {
                match pairs.next() {
                    Ok(Some(pair)) => range(&pair, out),
                    Ok(None) => break,
                    Err(error) => out.refuse(error),
                }
            }
        }
        Err(error) => out.refuse(error),
    }
}

fn range(pair: &ArangeEntry, out: &mut Answer) {
    let range = pair.range();
    out.pair(range.begin, range.end);
}

// The pairs of a set as they are written, and whether each counts.
fn aranges_by_one<R: Reader>(pairs: Result<ArangeEntryIter<R>, Error>, out: &mut Answer) {
    match pairs {
        Ok(mut pairs) => {
            for _ in 0..20 {
                match pairs.next_raw() {
                    Ok(Some(pair)) => pair_as_written(&pairs, pair, out),
                    Ok(None) => break,
                    Err(error) => {
                        out.refuse(error);
                        break;
                    }
                }
            }
        }
        Err(error) => out.refuse(error),
    }
}

fn pair_as_written<R: Reader>(pairs: &ArangeEntryIter<R>, pair: ArangeEntry, out: &mut Answer) {
    out.text("[");
    out.hex(pair.address());
    out.text(" ");
    out.hex(pair.length());
    out.text(" ");
    match pairs.convert_raw(pair) {
        Ok(counted) => out.value(&counted.is_some()),
        Err(error) => out.refuse(error),
    }
    out.text("]");
}

// The first unit, and the declarations of its entries in the second section.
fn first_unit<R: Reader>(
    alloc: Global,
    sections: Sections<R>,
) -> Result<(UnitHeader<R>, Abbreviations), Error> {
    let start = DebugInfoOffset(R::Offset::from_u8(0));
    let declared = DebugAbbrev::from(sections.second);
    match DebugInfo::from(sections.first).header_from_offset(start) {
        Ok(unit) => match unit.abbreviations(alloc, &declared) {
            Ok(table) => Ok((unit, table)),
            Err(error) => Err(error),
        },
        Err(error) => Err(error),
    }
}

// All entries, read.
fn entries<R: Reader>(
    alloc: Global,
    unit: Result<(UnitHeader<R>, Abbreviations), Error>,
    out: &mut Answer,
) {
    match unit {
        Ok((unit, table)) => match entries_raw(&unit, &table, None) {
            Ok(mut entries) => read_all(alloc, &mut entries, out),
            Err(error) => out.refuse(error),
        },
        Err(error) => out.refuse(error),
    }
}

fn read_all<R: Reader>(alloc: Global, entries: &mut EntriesRaw<'_, R>, out: &mut Answer) {
    let mut entry = DebuggingInformationEntry::null(alloc);
    for _ in 0..50 {
        if entries.is_empty() {
            break;
        }
        match entries.read_entry(&mut entry) {
            Ok(is_present) => row(&entry, is_present && !entry.is_null(), out),
            Err(error) => {
                out.refuse(error);
                break;
            }
        }
    }
}

fn row<R: Reader>(entry: &DebuggingInformationEntry<R>, is_present: bool, out: &mut Answer) {
    out.text("[");
    out.word(&entry.offset().0);
    out.word(&entry.depth());
    if is_present {
        out.code(&entry.tag());
        out.text_if(entry.has_children(), " children");
        out.text(" ");
        out.word(&entry.attrs().len());
        out.text("attributes]");
    } else {
        out.text("null]");
    }
}

// All entries, whose attributes are skipped.
fn entries_skipped<R: Reader>(
    unit: Result<(UnitHeader<R>, Abbreviations), Error>,
    out: &mut Answer,
) {
    match unit {
        Ok((unit, table)) => match entries_raw(&unit, &table, None) {
            Ok(mut entries) => skip_all(&mut entries, out),
            Err(error) => out.refuse(error),
        },
        Err(error) => out.refuse(error),
    }
}

fn skip_all<R: Reader>(entries: &mut EntriesRaw<'_, R>, out: &mut Answer) {
    for _ in 0..50 {
        if entries.is_empty() || !skip_entry(entries, out) {
            break;
        }
    }
}

// Skips an entry; whether it can.
fn skip_entry<R: Reader>(entries: &mut EntriesRaw<'_, R>, out: &mut Answer) -> bool {
    let (offset, depth) = (entries.next_offset().0, entries.next_depth());
    let outcome = match entries.read_abbreviation() {
        Ok(Some(declared)) => match entries.skip_attributes(declared.attributes()) {
            Ok(()) => Ok(Some(declared.tag())),
            Err(error) => Err(error),
        },
        Ok(None) => Ok(None),
        Err(error) => Err(error),
    };
    match outcome {
        Ok(tag) => {
            out.text("[");
            out.word(&offset);
            out.word(&depth);
            match tag {
                Some(tag) => out.code(&tag),
                None => out.text("null"),
            }
            out.text("]");
            true
        }
        Err(error) => {
            out.refuse(error);
            false
        }
    }
}

// The attributes of the entry at the offset, and then its first attribute twice.
fn attributes_from<R: Reader>(
    alloc: Global,
    case: &Case,
    unit: Result<(UnitHeader<R>, Abbreviations), Error>,
    out: &mut Answer,
) {
    match (unit, case.offset()) {
        (Ok((unit, table)), Ok(offset)) => {
            let offset = UnitOffset(offset);
            match entries_raw(&unit, &table, Some(offset)) {
                Ok(mut entries) => read_attributes(alloc, &mut entries, out),
                Err(error) => out.refuse(error),
            }
            match entries_raw(&unit, &table, Some(offset)) {
                Ok(mut entries) => read_twice(&mut entries, out),
                Err(error) => out.refuse(error),
            }
        }
        (Err(error), _) => out.refuse(error),
        (_, Err(error)) => out.refuse(error),
    }
}

// The attributes, and the depth after them.
fn read_attributes<R: Reader>(alloc: Global, entries: &mut EntriesRaw<'_, R>, out: &mut Answer) {
    let mut found = Vec::new(alloc);
    let outcome = match entries.read_abbreviation() {
        Ok(Some(declared)) => entries.read_attributes(declared.attributes(), &mut found),
        Ok(None) => Ok(()),
        Err(error) => Err(error),
    };
    each_attribute(&found, out);
    depth_after(outcome, entries, out);
}

// Each attribute with its form.
fn each_attribute<R: Reader>(attributes: &[Attribute<R>], out: &mut Answer) {
    for attribute in attributes {
        out.code(&attribute.form());
        attributes::value_of(&attribute.raw_value(), out);
    }
}

fn depth_after<R: Reader>(
    outcome: Result<(), Error>,
    entries: &EntriesRaw<'_, R>,
    out: &mut Answer,
) {
    match outcome {
        Ok(()) => {
            out.text(" depth ");
            out.value(&entries.next_depth());
        }
        Err(error) => out.refuse(error),
    }
}

// Of the attributes of the entry at the offset, those of the name and `DW_AT_name`, and where a
// walk stops that skips the others.
fn attributes_of_name<R: Reader>(
    alloc: Global,
    case: &Case,
    unit: Result<(UnitHeader<R>, Abbreviations), Error>,
    out: &mut Answer,
) {
    let names = [case.name, DW_AT_name];
    match (unit, case.offset()) {
        (Ok((unit, table)), Ok(offset)) => {
            match entries_raw(&unit, &table, Some(UnitOffset(offset))) {
                Ok(mut entries) => read_named_attributes(alloc, &names, &mut entries, out),
                Err(error) => out.refuse(error),
            }
            match entries_raw(&unit, &table, Some(UnitOffset(offset))) {
                Ok(mut entries) => skip_other_attributes(&names, &mut entries, out),
                Err(error) => out.refuse(error),
            }
        }
        (Err(error), _) => out.refuse(error),
        (_, Err(error)) => out.refuse(error),
    }
}

fn read_named_attributes<R: Reader>(
    alloc: Global,
    names: &[DwAt],
    entries: &mut EntriesRaw<'_, R>,
    out: &mut Answer,
) {
    let mut found = Vec::new(alloc);
    let outcome = match entries.read_abbreviation() {
        Ok(Some(declared)) => {
            entries.read_named_attributes(declared.attributes(), names, &mut found)
        }
        Ok(None) => Ok(()),
        Err(error) => Err(error),
    };
    each_attribute(&found, out);
    depth_after(outcome, entries, out);
}

// The offset of each attribute that isn't skipped, up to one that can't be read.
fn skip_other_attributes<R: Reader>(
    names: &[DwAt],
    entries: &mut EntriesRaw<'_, R>,
    out: &mut Answer,
) {
    out.text(", stops at");
    let Ok(Some(declared)) = entries.read_abbreviation() else {
        return;
    };
    let mut left = entries.skip_other_attributes(declared.attributes(), names);
    for _ in 0..20 {
        let [specification, rest @ ..] = left else {
            return;
        };
        out.text(" ");
        out.value(&entries.next_offset().0.into_u64());
        if entries.read_attribute(*specification).is_err() {
            return;
        }
        left = entries.skip_other_attributes(rest, names);
    }
}

// The first attribute, and what its form makes of the bytes after it.
fn read_twice<R: Reader>(entries: &mut EntriesRaw<'_, R>, out: &mut Answer) {
    match entries.read_abbreviation() {
        Ok(Some(declared)) => {
            if let Some(first) = declared.attributes().first() {
                copy_of(entries.read_attribute(*first), out);
                copy_of(entries.read_attribute_inline(*first), out);
            }
        }
        Ok(None) => out.text("null"),
        Err(error) => out.refuse(error),
    }
}

// The number of a copy of an attribute's value.
fn copy_of<R: Reader>(attribute: Result<Attribute<R>, Error>, out: &mut Answer) {
    out.text(", ");
    let value = match attribute {
        Ok(attribute) => attribute.raw_value(),
        Err(error) => Err(error),
    };
    match value {
        Ok(value) => match value.copy() {
            Ok(copy) => out.code(&copy.udata_value()),
            Err(error) => out.refuse(error),
        },
        Err(error) => out.refuse(error),
    }
}

// The entry at the offset.
fn one_entry<R: Reader>(entry: &Result<DebuggingInformationEntry<R>, Error>, out: &mut Answer) {
    match entry {
        Ok(entry) => row(entry, true, out),
        Err(error) => out.refuse(*error),
    }
}

fn entry<R: Reader>(
    alloc: Global,
    case: &Case,
    sections: Sections<R>,
) -> Result<DebuggingInformationEntry<R>, Error> {
    let start = DebugInfoOffset(R::Offset::from_u8(0));
    match DebugInfo::from(sections.first).header_from_offset(start) {
        Ok(unit) => {
            let table = table(alloc, sections.second, Ok(R::Offset::from_u8(0)));
            entry_of(alloc, &unit, table, case.offset())
        }
        Err(error) => Err(error),
    }
}

fn entry_of<R: Reader>(
    alloc: Global,
    unit: &UnitHeader<R>,
    table: Result<Abbreviations, Error>,
    offset: Result<R::Offset, Error>,
) -> Result<DebuggingInformationEntry<R>, Error> {
    match (table, offset) {
        (Ok(table), Ok(offset)) => unit.entry(alloc, &table, UnitOffset(offset)),
        (Err(error), _) => Err(error),
        (_, Err(error)) => Err(error),
    }
}

// The attribute of the name, as it is read and as its name makes it.
fn attribute_of_entry<R: Reader>(
    case: &Case,
    entry: Result<DebuggingInformationEntry<R>, Error>,
    out: &mut Answer,
) {
    match entry {
        Ok(entry) => {
            match entry.attr(case.name) {
                Some(attribute) => out.code(&attribute.form()),
                None => out.value(&entry.has_attr(case.name)),
            }
            attributes::value_if_any(&entry.attr_value_raw(case.name), out);
            attributes::value_if_any(&entry.attr_value(case.name), out);
        }
        Err(error) => out.refuse(error),
    }
}
