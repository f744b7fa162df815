//! The measures of reading units. Each goes over all of its bytes, and returns a checksum of what
//! it reads. Each is code of its own, so that none depends on how the others are compiled.

use crate::timing::mix;
use gimli_core::{
    Abbreviations, DW_TAG_subprogram, DebugAbbrev, DebugAddr, DebugAddrBase, DebugRngListsBase,
    DebugRngListsIndex, Encoding, Error, Format, Reader, ReaderOffset,
};
use gimli_units::{
    Attribute, AttributeValue, DebugInfo, DebugRanges, DebugRngLists, DebuggingInformationEntry,
    EntriesRaw, RangeLists, UnitEntries, UnitHeader, entries_raw,
};
use std::alloc::Global;

// The first unit of a section.
fn first_unit<R: Reader>(info: R) -> Result<UnitHeader<R>, Error> {
    match DebugInfo::from(info).units()?.next()? {
        Some(unit) => Ok(unit),
        None => Err(Error::NoSuchUnit),
    }
}

fn abbreviations<R: Reader>(
    alloc: Global,
    unit: &UnitHeader<R>,
    abbrev: R,
) -> Result<Abbreviations, Error> {
    unit.abbreviations(alloc, &DebugAbbrev::from(abbrev))
}

// ---- entries, read

/// All entries of a unit, with the values of all attributes.
#[inline(never)]
pub fn read_all<R: Reader>(alloc: Global, info: R, abbrev: R) -> Result<u64, Error> {
    let unit = first_unit(info)?;
    let abbreviations = abbreviations(alloc, &unit, abbrev)?;
    let mut entries = entries_raw(&unit, &abbreviations, None)?;
    let mut sum = 0;
    for _ in 0..unit.unit_length().into_u64() {
        if entries.is_empty() {
            break;
        }
        sum = read_entry(&mut entries, sum)?;
    }
    Ok(sum)
}

fn read_entry<R: Reader>(entries: &mut EntriesRaw<'_, R>, sum: u64) -> Result<u64, Error> {
    let Some(abbreviation) = entries.read_abbreviation()? else {
        return Ok(mix(sum, 0));
    };
    let mut sum = mix(sum, u64::from(abbreviation.tag().0));
    for specification in abbreviation.attributes() {
        let attribute = entries.read_attribute(*specification)?;
        sum = mix(sum, number_of(&attribute)?);
    }
    Ok(sum)
}

/// All entries of a unit, each read whole in place of the one before it.
#[inline(never)]
pub fn read_whole<R: Reader>(alloc: Global, info: R, abbrev: R) -> Result<u64, Error> {
    let unit = first_unit(info)?;
    let abbreviations = abbreviations(alloc, &unit, abbrev)?;
    let mut entries = entries_raw(&unit, &abbreviations, None)?;
    let mut entry = DebuggingInformationEntry::null(alloc);
    let mut sum = 0;
    for _ in 0..unit.unit_length().into_u64() {
        if entries.is_empty() {
            break;
        }
        entries.read_entry(&mut entry)?;
        sum = mix(sum, u64::from(entry.tag().0));
        for attribute in entry.attrs() {
            sum = mix(sum, number_of(attribute)?);
        }
    }
    Ok(sum)
}

// A number for each value; for bytes, how many there are.
fn number_of<R: Reader>(attribute: &Attribute<R>) -> Result<u64, Error> {
    Ok(match attribute.raw_value_ref() {
        AttributeValue::Addr(address) => *address,
        AttributeValue::Data1(number) => u64::from(*number),
        AttributeValue::Data2(number) => u64::from(*number),
        AttributeValue::Data4(number) => u64::from(*number),
        AttributeValue::Data8(number) => *number,
        AttributeValue::Udata(number) => *number,
        AttributeValue::Sdata(number) => number.cast_unsigned(),
        AttributeValue::Flag(flag) => u64::from(*flag),
        AttributeValue::UnitRef(offset) => offset.0.into_u64(),
        AttributeValue::SecOffset(offset) => offset.into_u64(),
        AttributeValue::DebugStrRef(offset) => offset.0.into_u64(),
        AttributeValue::String(text) => text.len().into_u64(),
        AttributeValue::Exprloc(expression) => expression.0.len().into_u64(),
        _ => return Err(Error::UnknownForm(attribute.form())),
    })
}

// ---- entries, skipped

/// All entries of a unit, their attributes skipped.
#[inline(never)]
pub fn skip_all<R: Reader>(alloc: Global, info: R, abbrev: R) -> Result<u64, Error> {
    let unit = first_unit(info)?;
    let abbreviations = abbreviations(alloc, &unit, abbrev)?;
    let mut entries = entries_raw(&unit, &abbreviations, None)?;
    let mut sum = 0;
    for _ in 0..unit.unit_length().into_u64() {
        if entries.is_empty() {
            break;
        }
        sum = skip_entry(&mut entries, sum)?;
    }
    Ok(sum)
}

fn skip_entry<R: Reader>(entries: &mut EntriesRaw<'_, R>, sum: u64) -> Result<u64, Error> {
    let Some(abbreviation) = entries.read_abbreviation()? else {
        return Ok(mix(sum, 0));
    };
    entries.skip_entry(&abbreviation)?;
    Ok(mix(sum, u64::from(abbreviation.tag().0)))
}

/// The entries of functions of a unit, their attributes skipped, and all entries between them.
#[inline(never)]
pub fn functions<R: Reader>(alloc: Global, info: R, abbrev: R) -> Result<u64, Error> {
    let unit = first_unit(info)?;
    let abbreviations = abbreviations(alloc, &unit, abbrev)?;
    let mut entries = entries_raw(&unit, &abbreviations, None)?;
    let mut sum = 0;
    for _ in 0..unit.unit_length().into_u64() {
        entries.skip_others(&[DW_TAG_subprogram], isize::MIN);
        if entries.is_empty() {
            break;
        }
        sum = skip_entry(&mut entries, sum)?;
    }
    Ok(sum)
}

// ---- lists of ranges

const ENCODING: Encoding = Encoding {
    address_size: 8,
    format: Format::Dwarf32,
    version: 5,
};

/// A number of lists of ranges, each by its index: the begins and ends of their ranges.
#[inline(never)]
pub fn ranges<R: Reader>(count: usize, nothing: R, lists: R, addresses: R) -> Result<u64, Error> {
    let lists = RangeLists::new(DebugRanges::from(nothing), DebugRngLists::from(lists));
    let addresses = DebugAddr::from(addresses);
    let mut sum = 0;
    for index in 0..count {
        sum = list(&lists, &addresses, index as u64, sum)?;
    }
    Ok(sum)
}

fn list<R: Reader>(
    lists: &RangeLists<R>,
    addresses: &DebugAddr<R>,
    index: u64,
    sum: u64,
) -> Result<u64, Error> {
    let base = DebugRngListsBase(R::Offset::from_u8(12));
    let index = DebugRngListsIndex(R::Offset::from_u64(index)?);
    let offset = lists.get_offset(ENCODING, base, index)?;
    let address_base = DebugAddrBase(R::Offset::from_u8(8));
    let mut ranges = lists.ranges(offset, ENCODING, 0, addresses, address_base)?;
    let mut sum = sum;
    for _ in 0..u64::MAX {
        match ranges.next()? {
            Some(range) => sum = mix(mix(sum, range.begin), range.end),
            None => break,
        }
    }
    Ok(sum)
}
