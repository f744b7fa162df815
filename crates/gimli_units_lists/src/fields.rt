ghost use Rattle.gimli_core_readers.specs.Calls.{ReturnsAs};
ghost use Rattle.gimli_units_lists.specs.ListEntryFields.{index, indexes, offsets, addresses, address_and_length};

use gimli_core_readers::{DebugAddrIndex, Error, Reader, ReaderOffset};

// An index into the addresses.
#[tactic(auto, unfolding(crate::specs::ListEntryFields::index))]
pub(crate) fn read_index<R: Reader, O: ReaderOffset>(
    input: &mut R,
) -> Result<DebugAddrIndex<O>, Error>
    ensures { ReturnsAs (λ index. (O.count index.0, R.view input.new)) result
        (index O.limit (R.view input.old)) }
{
    let index = input.read_uleb128()?;
    Ok(DebugAddrIndex(O::from_u64(index)?))
}

// The indexes of begin and end.
#[tactic(auto, unfolding(crate::specs::ListEntryFields::indexes))]
pub(crate) fn read_indexes<R: Reader, O: ReaderOffset>(
    input: &mut R,
) -> Result<(DebugAddrIndex<O>, DebugAddrIndex<O>), Error>
    ensures { ReturnsAs (λ p. ((O.count p.0.0, O.count p.1.0), R.view input.new)) result
        (indexes O.limit (R.view input.old)) }
{
    let begin = read_index(input)?;
    let end = read_index(input)?;
    Ok((begin, end))
}

// The offsets of begin and end.
#[tactic(auto, unfolding(crate::specs::ListEntryFields::offsets))]
pub(crate) fn read_offsets<R: Reader>(input: &mut R) -> Result<(u64, u64), Error>
    ensures { ReturnsAs (λ p. (p, R.view input.new)) result (offsets (R.view input.old)) }
{
    let begin = input.read_uleb128()?;
    let end = input.read_uleb128()?;
    Ok((begin, end))
}

// The addresses of begin and end.
#[tactic(auto, unfolding(crate::specs::ListEntryFields::addresses))]
pub(crate) fn read_addresses<R: Reader>(
    input: &mut R,
    address_size: u8,
) -> Result<(u64, u64), Error>
    ensures { ReturnsAs (λ p. (p, R.view input.new)) result
        (addresses address_size (R.view input.old)) }
{
    let begin = input.read_address(address_size)?;
    let end = input.read_address(address_size)?;
    Ok((begin, end))
}

// An address and a length.
#[tactic(auto, unfolding(crate::specs::ListEntryFields::address_and_length))]
pub(crate) fn read_address_and_length<R: Reader>(
    input: &mut R,
    address_size: u8,
) -> Result<(u64, u64), Error>
    ensures { ReturnsAs (λ p. (p, R.view input.new)) result
        (address_and_length address_size (R.view input.old)) }
{
    let begin = input.read_address(address_size)?;
    let length = input.read_uleb128()?;
    Ok((begin, length))
}
