ghost use Rattle.std.specs.Prelude.{option_map};
ghost use Rattle.gimli_core_readers.specs.Calls.{ReturnsAs};
ghost use Rattle.gimli_units_lists.specs.RangeEntries.{range_pair, range_kind, range_entry};
ghost use Rattle.gimli_units_lists.specs.ListEntryViews.{raw_entry};

use crate::entry_list::ListEntry;
use crate::fields::{
    read_address_and_length, read_addresses, read_index, read_indexes, read_offsets,
};
use gimli_core_readers::{
    DW_RLE_base_address, DW_RLE_base_addressx, DW_RLE_end_of_list, DW_RLE_offset_pair,
    DW_RLE_start_end, DW_RLE_start_length, DW_RLE_startx_endx, DW_RLE_startx_length,
    DebugAddrIndex, DwRle, Encoding, Error, Reader, greatest_address,
};

/// An entry of a range list, as its list has it.
#[derive(Clone, Copy, Debug, PartialEq, Eq)]
pub enum RawRngListEntry<T> {
    /// A range relative to the base, up to version 4 (DWARF 4, 2.17.3).
    AddressOrOffsetPair {
        begin: u64,
        end: u64,
    },
    /// The base of the entries after it.
    BaseAddress {
        addr: u64,
    },
    /// The same, by the index of its address.
    BaseAddressx {
        addr: DebugAddrIndex<T>,
    },
    /// A range by the indexes of its ends.
    StartxEndx {
        begin: DebugAddrIndex<T>,
        end: DebugAddrIndex<T>,
    },
    /// A range by the index of its begin, and its bytes.
    StartxLength {
        begin: DebugAddrIndex<T>,
        length: u64,
    },
    /// A range relative to the base, from version 5 on.
    OffsetPair {
        begin: u64,
        end: u64,
    },
    /// A range by its ends.
    StartEnd {
        begin: u64,
        end: u64,
    },
    /// A range by its begin, and its bytes.
    StartLength {
        begin: u64,
        length: u64,
    },
}

impl<R: Reader> ListEntry<R> for RawRngListEntry<R::Offset> {
    ghost use Rattle.gimli_units_lists.specs.ListEntries.{RawEntry};
    ghost use Rattle.gimli_units_lists.specs.ListEntryViews.{raw_entry};
    ghost use Rattle.gimli_units_lists.specs.RangeEntries.{range_entry};

    type How = Encoding;

    ghost Raw = { RawEntry };

    ghost see = { raw_entry R.Offset.count };

    ghost entry = { range_entry R.Offset.limit };

    ghost reads_freely = { Unit {0} };

    fn parse(input: &mut R, encoding: Encoding) -> Result<Option<Self>, Error> {
        parse_entry(input, encoding)
    }
}

// The next entry of a list, none at its end.
#[tactic(auto, unfolding(crate::specs::RangeEntries::range_entry))]
fn parse_entry<R: Reader>(
    input: &mut R,
    encoding: Encoding,
) -> Result<Option<RawRngListEntry<R::Offset>>, Error>
    ensures { ReturnsAs (λ entry. (option_map (raw_entry R.Offset.count) entry, R.view input.new))
        result
        (range_entry R.Offset.limit encoding (R.view input.old)) }
{
    if encoding.version <= 4 {
        parse_pair(input, encoding.address_size)
    } else {
        parse_kind(input, encoding.address_size)
    }
}

// An entry of `.debug_ranges`.
#[tactic(auto, unfolding(crate::specs::RangeEntries::range_pair))]
fn parse_pair<R: Reader>(
    input: &mut R,
    address_size: u8,
) -> Result<Option<RawRngListEntry<R::Offset>>, Error>
    ensures { ReturnsAs (λ entry. (option_map (raw_entry R.Offset.count) entry, R.view input.new))
        result
        (range_pair address_size (R.view input.old)) }
{
    let (begin, end) = read_addresses(input, address_size)?;
    if begin == 0 && end == 0 {
        return Ok(None);
    }
    if begin == greatest_address(address_size) {
        return Ok(Some(RawRngListEntry::BaseAddress { addr: end }));
    }
    Ok(Some(RawRngListEntry::AddressOrOffsetPair { begin, end }))
}

// An entry of `.debug_rnglists`.
#[tactic(auto, unfolding(crate::specs::RangeEntries::range_kind))]
fn parse_kind<R: Reader>(
    input: &mut R,
    address_size: u8,
) -> Result<Option<RawRngListEntry<R::Offset>>, Error>
    ensures { ReturnsAs (λ entry. (option_map (raw_entry R.Offset.count) entry, R.view input.new))
        result
        (range_kind R.Offset.limit address_size (R.view input.old)) }
{
    let kind = input.read_u8()?;
    Ok(Some(match DwRle(kind) {
        DW_RLE_end_of_list => return Ok(None),
        DW_RLE_base_addressx => RawRngListEntry::BaseAddressx {
            addr: read_index(input)?,
        },
        DW_RLE_startx_endx => {
            let (begin, end) = read_indexes(input)?;
            RawRngListEntry::StartxEndx { begin, end }
        }
        DW_RLE_startx_length => RawRngListEntry::StartxLength {
            begin: read_index(input)?,
            length: input.read_uleb128()?,
        },
        DW_RLE_offset_pair => {
            let (begin, end) = read_offsets(input)?;
            RawRngListEntry::OffsetPair { begin, end }
        }
        DW_RLE_base_address => RawRngListEntry::BaseAddress {
            addr: input.read_address(address_size)?,
        },
        DW_RLE_start_end => {
            let (begin, end) = read_addresses(input, address_size)?;
            RawRngListEntry::StartEnd { begin, end }
        }
        DW_RLE_start_length => {
            let (begin, length) = read_address_and_length(input, address_size)?;
            RawRngListEntry::StartLength { begin, length }
        }
        _ => return Err(Error::UnknownRangeListsEntry(DwRle(kind))),
    }))
}
