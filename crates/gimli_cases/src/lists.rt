//! Range lists and location lists (DWARF 4, 2.6.2 and 2.17.3; DWARF 5, 7.25, 7.28 and 7.29).

use crate::answer::Answer;
use crate::case::Case;
use crate::sections::Sections;
use gimli_core::{
    DebugAddr, DebugAddrBase, DebugLocListsBase, DebugLocListsIndex, DebugRngListsBase,
    DebugRngListsIndex, Error, LocationListsOffset, RangeListsOffset, Reader, ReaderOffset,
    ReaderOffsetId,
};
use gimli_units::{
    DebugLoc, DebugLocLists, DebugRanges, DebugRngLists, ListsHeader, LocListIter,
    LocationListEntry, LocationLists, Range, RangeLists, RawLocListEntry, RawLocListIter,
    RawRngListEntry, RngListIter,
};

/// Answers a question about range lists. The first section holds the lists of the version, and the
/// second the addresses that they name, from 0 on.
pub fn answer<R: Reader>(case: &Case, sections: Sections<R>, out: &mut Answer) {
    let lists = range_lists(case, sections.first, sections.third);
    match case.operation.as_str() {
        "ranges" => entries(ranges_of(case, &lists, sections.second), out),
        "ranges_by_one" => entries_by_one(ranges_of(case, &lists, sections.second), out),
        "raw_ranges" => raw_ranges(case, &lists, out),
        _ => range_list_offset(case, &lists, out),
    }
}

/// Answers a question about location lists.
pub fn answer_about_locations<R: Reader>(case: &Case, sections: Sections<R>, out: &mut Answer) {
    let lists = location_lists(case, sections.first, sections.third);
    match case.operation.as_str() {
        "locations" => entries(locations_of(case, &lists, sections.second), out),
        "locations_by_one" => entries_by_one(locations_of(case, &lists, sections.second), out),
        "raw_locations" => raw_locations(raw_locations_of(case, &lists), out),
        _ => location_list_offset(case, &lists, out),
    }
}

fn range_lists<R: Reader>(case: &Case, lists: R, none: R) -> RangeLists<R> {
    if case.version <= 4 {
        RangeLists::new(DebugRanges::from(lists), DebugRngLists::from(none))
    } else {
        RangeLists::new(DebugRanges::from(none), DebugRngLists::from(lists))
    }
}

/// The section that the identifier of the index is in, and the place in it. The first section is
/// that of units up to version 4, and the second that of later ones.
pub fn place_in_ranges<R: Reader>(case: &Case, sections: Sections<R>, out: &mut Answer) {
    let ranges = DebugRanges::from(sections.first);
    let lists = RangeLists::new(ranges, DebugRngLists::from(sections.second));
    out.code(&lists.lookup_offset_id(ReaderOffsetId(case.index)));
}

fn ranges_of<R: Reader>(
    case: &Case,
    lists: &RangeLists<R>,
    addresses: R,
) -> Result<RngListIter<R>, Error> {
    let addresses = DebugAddr::from(addresses);
    let start = DebugAddrBase(R::Offset::from_u8(0));
    let encoding = case.encoding();
    match (case.offset(), encoding.address_size) {
        (Ok(offset), 1 | 2 | 4 | 8) => {
            lists.ranges(
                RangeListsOffset(offset),
                encoding,
                case.base,
                &addresses,
                start,
            )
        }
        (Ok(_), size) => Err(Error::UnsupportedAddressSize(size)),
        (Err(error), _) => Err(error),
    }
}

// A list of ranges or of locations.
trait EntryList: Drop {
    type Entry: Drop;

    type RawEntry: Drop;

    fn next_entry(&mut self) -> Result<Option<Self::Entry>, Error>;

    fn next_raw_entry(&mut self) -> Result<Option<Self::RawEntry>, Error>;

    fn convert(&mut self, entry: Self::RawEntry) -> Result<Option<Self::Entry>, Error>;

    fn answer_entry(entry: &Self::Entry, out: &mut Answer);
}

impl<R: Reader> EntryList for RngListIter<R> {
    type Entry = Range;

    type RawEntry = RawRngListEntry<R::Offset>;

    fn next_entry(&mut self) -> Result<Option<Range>, Error> {
        self.next()
    }

    fn next_raw_entry(&mut self) -> Result<Option<RawRngListEntry<R::Offset>>, Error> {
        self.next_raw()
    }

    fn convert(&mut self, entry: RawRngListEntry<R::Offset>) -> Result<Option<Range>, Error> {
        self.convert_raw(entry)
    }

    fn answer_entry(entry: &Range, out: &mut Answer) {
        out.pair(entry.begin, entry.end);
    }
}

impl<R: Reader> EntryList for LocListIter<R> {
    type Entry = LocationListEntry<R>;

    type RawEntry = RawLocListEntry<R>;

    fn next_entry(&mut self) -> Result<Option<LocationListEntry<R>>, Error> {
        self.next()
    }

    fn next_raw_entry(&mut self) -> Result<Option<RawLocListEntry<R>>, Error> {
        self.next_raw()
    }

    fn convert(
        &mut self,
        entry: RawLocListEntry<R>,
    ) -> Result<Option<LocationListEntry<R>>, Error> {
        self.convert_raw(entry)
    }

    fn answer_entry(entry: &LocationListEntry<R>, out: &mut Answer) {
        out.text("[");
        out.hex(entry.range.begin);
        out.text(" ");
        out.hex(entry.range.end);
        out.text(" ");
        out.bytes(&entry.expression.0);
        out.text("]");
    }
}

// The entries that count, with a refusal in its place.
fn entries<L: EntryList>(list: Result<L, Error>, out: &mut Answer) {
    match list {
        Ok(mut list) => {
            for _ in 0..20 {
                match list.next_entry() {
                    Ok(Some(entry)) => L::answer_entry(&entry, out),
                    Ok(None) => break,
                    Err(error) => out.refuse(error),
                }
            }
        }
        Err(error) => out.refuse(error),
    }
}

// The entries, each converted by itself.
fn entries_by_one<L: EntryList>(list: Result<L, Error>, out: &mut Answer) {
    match list {
        Ok(mut list) => {
            for _ in 0..20 {
                if !convert_next(&mut list, out) {
                    break;
                }
            }
        }
        Err(error) => out.refuse(error),
    }
}

// Converts the next entry; whether there may be another.
fn convert_next<L: EntryList>(list: &mut L, out: &mut Answer) -> bool {
    match list.next_raw_entry() {
        Ok(Some(entry)) => {
            match list.convert(entry) {
                Ok(Some(found)) => L::answer_entry(&found, out),
                Ok(None) => out.text("[none]"),
                Err(error) => out.refuse(error),
            }
            true
        }
        Ok(None) => false,
        Err(error) => {
            out.refuse(error);
            false
        }
    }
}

// The entries as they are written.
fn raw_ranges<R: Reader>(case: &Case, lists: &RangeLists<R>, out: &mut Answer) {
    let entries = match case.offset() {
        Ok(offset) => lists.raw_ranges(RangeListsOffset(offset), case.encoding()),
        Err(error) => Err(error),
    };
    match entries {
        Ok(mut entries) => {
            for _ in 0..20 {
                match entries.next() {
                    Ok(Some(entry)) => {
                        out.text("[");
                        out.code(&entry);
                        out.text("]");
                    }
                    Ok(None) => break,
                    Err(error) => {
                        out.refuse(error);
                        break;
                    }
                }
            }
        }
        Err(error) => out.refuse(error),
    }
}

/// The header of a table of lists, and the bytes left of its table.
pub fn lists_header<R: Reader>(mut reader: R, out: &mut Answer) {
    match ListsHeader::parse(&mut reader) {
        Ok(header) => {
            out.code(&header.encoding);
            out.text(", ");
            out.word(&header.offset_entry_count);
            out.text("lists, ");
            out.word(&header.size());
            out.text("bytes, ");
            out.word(&reader.len().into_u64());
            out.text("left");
        }
        Err(error) => out.refuse(error),
    }
}

fn range_list_offset<R: Reader>(case: &Case, lists: &RangeLists<R>, out: &mut Answer) {
    match case.base_and_index() {
        Ok((base, index)) => {
            let (base, index) = (DebugRngListsBase(base), DebugRngListsIndex(index));
            match lists.get_offset(case.encoding(), base, index) {
                Ok(offset) => out.code(&offset.0),
                Err(error) => out.refuse(error),
            }
        }
        Err(error) => out.refuse(error),
    }
}

fn location_lists<R: Reader>(case: &Case, lists: R, none: R) -> LocationLists<R> {
    if case.version <= 4 {
        LocationLists::new(DebugLoc::from(lists), DebugLocLists::from(none))
    } else {
        LocationLists::new(DebugLoc::from(none), DebugLocLists::from(lists))
    }
}

fn location_list_offset<R: Reader>(case: &Case, lists: &LocationLists<R>, out: &mut Answer) {
    match case.base_and_index() {
        Ok((base, index)) => {
            let (base, index) = (DebugLocListsBase(base), DebugLocListsIndex(index));
            match lists.get_offset(case.encoding(), base, index) {
                Ok(offset) => out.code(&offset.0),
                Err(error) => out.refuse(error),
            }
        }
        Err(error) => out.refuse(error),
    }
}

fn locations_of<R: Reader>(
    case: &Case,
    lists: &LocationLists<R>,
    addresses: R,
) -> Result<LocListIter<R>, Error> {
    match case.offset() {
        Ok(offset) => locations_at(case, lists, &DebugAddr::from(addresses), offset),
        Err(error) => Err(error),
    }
}

fn locations_at<R: Reader>(
    case: &Case,
    lists: &LocationLists<R>,
    addresses: &DebugAddr<R>,
    offset: R::Offset,
) -> Result<LocListIter<R>, Error> {
    let offset = LocationListsOffset(offset);
    let start = DebugAddrBase(R::Offset::from_u8(0));
    let encoding = case.encoding();
    match encoding.address_size {
        1 | 2 | 4 | 8 if case.is_split => {
            lists.locations_dwo(offset, encoding, case.base, addresses, start)
        }
        1 | 2 | 4 | 8 => lists.locations(offset, encoding, case.base, addresses, start),
        size => Err(Error::UnsupportedAddressSize(size)),
    }
}

fn raw_locations_of<R: Reader>(
    case: &Case,
    lists: &LocationLists<R>,
) -> Result<RawLocListIter<R>, Error> {
    match case.offset() {
        Ok(offset) if case.is_split => {
            lists.raw_locations_dwo(LocationListsOffset(offset), case.encoding())
        }
        Ok(offset) => lists.raw_locations(LocationListsOffset(offset), case.encoding()),
        Err(error) => Err(error),
    }
}

// The kinds of the entries as they are written.
fn raw_locations<R: Reader>(entries: Result<RawLocListIter<R>, Error>, out: &mut Answer) {
    match entries {
        Ok(mut entries) => {
            for _ in 0..20 {
                match entries.next() {
                    Ok(Some(entry)) => raw_location(&entry, out),
                    Ok(None) => break,
                    Err(error) => {
                        out.refuse(error);
                        break;
                    }
                }
            }
        }
        Err(error) => out.refuse(error),
    }
}

fn raw_location<R: Reader>(entry: &RawLocListEntry<R>, out: &mut Answer) {
    let (kind, first, second) = match entry {
        RawLocListEntry::AddressOrOffsetPair { begin, end, .. } => {
            ("AddressOrOffsetPair", *begin, *end)
        }
        RawLocListEntry::OffsetPair { begin, end, .. } => ("OffsetPair", *begin, *end),
        RawLocListEntry::StartEnd { begin, end, .. } => ("StartEnd", *begin, *end),
        RawLocListEntry::StartLength { begin, length, .. } => ("StartLength", *begin, *length),
        RawLocListEntry::BaseAddress { addr } => ("BaseAddress", *addr, 0),
        _ => ("other", 0, 0),
    };
    out.text("[");
    out.text(kind);
    out.text(" ");
    out.hex(first);
    out.text(" ");
    out.hex(second);
    out.text("]");
}
