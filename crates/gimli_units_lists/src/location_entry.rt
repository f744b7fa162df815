ghost use Rattle.std.specs.Prelude.{option_map, ◌≡◌, ◌≢◌, IsTrue, Err};
ghost use Rattle.gimli_core_readers.specs.Calls.{ReturnsAs, ReturnsAsOrNoMemory};
ghost use Rattle.gimli_core_readers.specs.Error.TheVariants.{Memory};
ghost use Rattle.gimli_units_lists.specs.LocationEntries.{location_pair, location_kind, location_entry, expression_length, expression, index_and_length};
ghost use Rattle.gimli_units_lists.specs.ListEntryViews.{raw_location, raw_parts};
ghost use Rattle.gimli_core_readers.specs.Places.{IsAfter};

use crate::entry_list::ListEntry;
use crate::fields::{
    read_address_and_length, read_addresses, read_index, read_indexes, read_offsets,
};
use crate::range_entry::RawRngListEntry;
use gimli_core_readers::{
    DW_LLE_base_address, DW_LLE_base_addressx, DW_LLE_default_location, DW_LLE_end_of_list,
    DW_LLE_offset_pair, DW_LLE_start_end, DW_LLE_start_length, DW_LLE_startx_endx,
    DW_LLE_startx_length, DebugAddrIndex, DwLle, Encoding, EndianSlice, Error, Expression, Reader,
    ReaderOffset, borrowed, bytes_before, cut, greatest_address,
};

/// An entry of a location list, as its list has it.
#[derive(Debug, Drop)]
pub enum RawLocListEntry<R: Reader> {
    /// A range relative to the base, up to version 4 (DWARF 4, 2.6.2).
    AddressOrOffsetPair {
        begin: u64,
        end: u64,
        expression: Expression<R>,
    },
    /// The base of the entries after it.
    BaseAddress {
        addr: u64,
    },
    /// The same, by the index of its address.
    BaseAddressx {
        addr: DebugAddrIndex<R::Offset>,
    },
    /// A range by the indexes of its ends.
    StartxEndx {
        begin: DebugAddrIndex<R::Offset>,
        end: DebugAddrIndex<R::Offset>,
        expression: Expression<R>,
    },
    /// A range by the index of its begin, and its bytes.
    StartxLength {
        begin: DebugAddrIndex<R::Offset>,
        length: u64,
        expression: Expression<R>,
    },
    /// A range relative to the base, from version 5 on.
    OffsetPair {
        begin: u64,
        end: u64,
        expression: Expression<R>,
    },
    /// The expression of all addresses that no other entry holds.
    DefaultLocation {
        expression: Expression<R>,
    },
    /// A range by its ends.
    StartEnd {
        begin: u64,
        end: u64,
        expression: Expression<R>,
    },
    /// A range by its begin, and its bytes.
    StartLength {
        begin: u64,
        length: u64,
        expression: Expression<R>,
    },
}

impl<R: Reader> ListEntry<R> for RawLocListEntry<R> {
    ghost use Rattle.std.specs.Prelude.{IsTrue};
    ghost use Rattle.gimli_units_lists.specs.ListEntryViews.{raw_location};
    ghost use Rattle.gimli_units_lists.specs.LocationEntries.{RawLocation, location_entry};

    // The encoding, and whether entries begin with their kind.
    type How = (Encoding, bool);

    ghost Raw = { RawLocation };

    ghost see = { raw_location R.view R.Offset.count };

    ghost entry = { λ how. location_entry R.Offset.limit how.0 how.1 };

    ghost reads_freely = { IsTrue R.copies_freely };

    fn parse(input: &mut R, how: (Encoding, bool)) -> Result<Option<Self>, Error> {
        let (encoding, by_kind) = how;
        let mut place = borrowed(input);
        let entry = parse_entry(&mut place, input, encoding, by_kind)?;
        let count = bytes_before(&place, input);
        input.advance(count);
        Ok(entry)
    }
}

// The next entry of a list, none at its end.
#[tactic(auto, unfolding(crate::specs::LocationEntries::location_entry))]
fn parse_entry<R: Reader>(
    place: &mut EndianSlice<'_, R::Endian>,
    reader: &R,
    encoding: Encoding,
    by_kind: bool,
) -> Result<Option<RawLocListEntry<R>>, Error>
    requires { IsAfter (R.view reader.now) place.old }
    ensures value { ReturnsAsOrNoMemory
        (λ entry. (option_map (raw_location R.view R.Offset.count) entry, place.new)) result
        (location_entry R.Offset.limit encoding by_kind place.old) }
    ensures free { IsTrue R.copies_freely → result ≢ Err Memory }
{
    if by_kind {
        parse_kind(place, reader, encoding)
    } else {
        parse_pair(place, reader, encoding)
    }
}

// An entry of `.debug_loc`.
#[tactic(auto, unfolding(crate::specs::LocationEntries::location_pair))]
fn parse_pair<R: Reader>(
    place: &mut EndianSlice<'_, R::Endian>,
    reader: &R,
    encoding: Encoding,
) -> Result<Option<RawLocListEntry<R>>, Error>
    requires { IsAfter (R.view reader.now) place.old }
    ensures value { ReturnsAsOrNoMemory
        (λ entry. (option_map (raw_location R.view R.Offset.count) entry, place.new)) result
        (location_pair R.Offset.limit encoding place.old) }
    ensures free { IsTrue R.copies_freely
        → ReturnsAs
        (λ entry. (option_map (raw_location R.view R.Offset.count) entry, place.new))
        result (location_pair R.Offset.limit encoding place.old) }
{
    let (begin, end) = read_addresses(place, encoding.address_size)?;
    if begin == 0 && end == 0 {
        return Ok(None);
    }
    if begin == greatest_address(encoding.address_size) {
        return Ok(Some(RawLocListEntry::BaseAddress { addr: end }));
    }
    Ok(Some(RawLocListEntry::AddressOrOffsetPair {
        begin,
        end,
        expression: parse_expression(place, reader, encoding)?,
    }))
}

// An entry of `.debug_loclists`, or of `.debug_loc` in a split file.
#[tactic(auto, unfolding(crate::specs::LocationEntries::location_kind))]
fn parse_kind<R: Reader>(
    place: &mut EndianSlice<'_, R::Endian>,
    reader: &R,
    encoding: Encoding,
) -> Result<Option<RawLocListEntry<R>>, Error>
    requires { IsAfter (R.view reader.now) place.old }
    ensures value { ReturnsAsOrNoMemory
        (λ entry. (option_map (raw_location R.view R.Offset.count) entry, place.new)) result
        (location_kind R.Offset.limit encoding place.old) }
    ensures free { IsTrue R.copies_freely
        → ReturnsAs
        (λ entry. (option_map (raw_location R.view R.Offset.count) entry, place.new))
        result (location_kind R.Offset.limit encoding place.old) }
{
    let kind = place.read_u8()?;
    Ok(Some(match DwLle(kind) {
        DW_LLE_end_of_list => return Ok(None),
        DW_LLE_base_addressx => RawLocListEntry::BaseAddressx {
            addr: read_index(place)?,
        },
        DW_LLE_startx_endx => {
            let (begin, end) = read_indexes(place)?;
            let expression = parse_expression(place, reader, encoding)?;
            RawLocListEntry::StartxEndx {
                begin,
                end,
                expression,
            }
        }
        DW_LLE_startx_length => {
            let (begin, length) = read_index_and_length(place, encoding)?;
            let expression = parse_expression(place, reader, encoding)?;
            RawLocListEntry::StartxLength {
                begin,
                length,
                expression,
            }
        }
        DW_LLE_offset_pair => {
            let (begin, end) = read_offsets(place)?;
            let expression = parse_expression(place, reader, encoding)?;
            RawLocListEntry::OffsetPair {
                begin,
                end,
                expression,
            }
        }
        DW_LLE_default_location => RawLocListEntry::DefaultLocation {
            expression: parse_expression(place, reader, encoding)?,
        },
        DW_LLE_base_address => RawLocListEntry::BaseAddress {
            addr: place.read_address(encoding.address_size)?,
        },
        DW_LLE_start_end => {
            let (begin, end) = read_addresses(place, encoding.address_size)?;
            let expression = parse_expression(place, reader, encoding)?;
            RawLocListEntry::StartEnd {
                begin,
                end,
                expression,
            }
        }
        DW_LLE_start_length => {
            let (begin, length) = read_address_and_length(place, encoding.address_size)?;
            let expression = parse_expression(place, reader, encoding)?;
            RawLocListEntry::StartLength {
                begin,
                length,
                expression,
            }
        }
        _ => return Err(Error::UnknownLocListsEntry(DwLle(kind))),
    }))
}

// An index and a length, whose width depends on the version.
#[tactic(auto, unfolding(crate::specs::LocationEntries::index_and_length))]
fn read_index_and_length<R: Reader, O: ReaderOffset>(
    input: &mut R,
    encoding: Encoding,
) -> Result<(DebugAddrIndex<O>, u64), Error>
    ensures { ReturnsAs (λ p. ((O.count p.0.0, p.1), R.view input.new)) result
        (index_and_length O.limit encoding (R.view input.old)) }
{
    let begin = read_index(input)?;
    let length = if encoding.version <= 4 {
        u64::from(input.read_u32()?)
    } else {
        input.read_uleb128()?
    };
    Ok((begin, length))
}

// The length of an expression, whose width depends on the version.
fn read_expression_length<R: Reader, O: ReaderOffset>(
    input: &mut R,
    encoding: Encoding,
) -> Result<O, Error>
    ensures { ReturnsAs (λ length. (O.count length, R.view input.new)) result
        (expression_length O.limit encoding (R.view input.old)) }
{
    if encoding.version <= 4 {
        Ok(O::from_u16(input.read_u16()?))
    } else {
        O::from_u64(input.read_uleb128()?)
    }
}

// The next expression, after its length. Takes memory only where a part of the reader does.
#[tactic(auto, unfolding(crate::specs::LocationEntries::expression))]
fn parse_expression<R: Reader>(
    place: &mut EndianSlice<'_, R::Endian>,
    reader: &R,
    encoding: Encoding,
) -> Result<Expression<R>, Error>
    requires { IsAfter (R.view reader.now) place.old }
    ensures value { ReturnsAsOrNoMemory (λ x. (R.view x.0, place.new)) result
        (expression R.Offset.limit encoding place.old) }
    ensures free { IsTrue R.copies_freely
        → ReturnsAs (λ x. (R.view x.0, place.new)) result
        (expression R.Offset.limit encoding place.old) }
{
    let length: R::Offset = read_expression_length(place, encoding)?;
    Ok(Expression(cut(place, reader, length.into_u64())?))
}

// An entry by what is resolved of it.
#[derive(Drop)]
pub(crate) enum Parts<R: Reader> {
    /// A base.
    Base(RawRngListEntry<R::Offset>),
    /// A range with its expression.
    Bounded(RawRngListEntry<R::Offset>, Expression<R>),
    /// An expression for all other addresses.
    Default(Expression<R>),
}

// What an entry has: the entry of a range list that says the same, and the expression.
pub(crate) fn parts_of<R: Reader>(entry: RawLocListEntry<R>) -> Parts<R>
    ensures { raw_parts R.view R.Offset.count result ≡ raw_location R.view R.Offset.count entry }
{
    match entry {
        RawLocListEntry::AddressOrOffsetPair {
            begin,
            end,
            expression,
        } => Parts::Bounded(
            RawRngListEntry::AddressOrOffsetPair { begin, end },
            expression,
        ),
        RawLocListEntry::BaseAddress { addr } => Parts::Base(RawRngListEntry::BaseAddress { addr }),
        RawLocListEntry::BaseAddressx { addr } => {
            Parts::Base(RawRngListEntry::BaseAddressx { addr })
        }
        RawLocListEntry::StartxEndx {
            begin,
            end,
            expression,
        } => Parts::Bounded(RawRngListEntry::StartxEndx { begin, end }, expression),
        RawLocListEntry::StartxLength {
            begin,
            length,
            expression,
        } => Parts::Bounded(RawRngListEntry::StartxLength { begin, length }, expression),
        RawLocListEntry::OffsetPair {
            begin,
            end,
            expression,
        } => Parts::Bounded(RawRngListEntry::OffsetPair { begin, end }, expression),
        RawLocListEntry::DefaultLocation { expression } => Parts::Default(expression),
        RawLocListEntry::StartEnd {
            begin,
            end,
            expression,
        } => Parts::Bounded(RawRngListEntry::StartEnd { begin, end }, expression),
        RawLocListEntry::StartLength {
            begin,
            length,
            expression,
        } => Parts::Bounded(RawRngListEntry::StartLength { begin, length }, expression),
    }
}
