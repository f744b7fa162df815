//! What one attribute of a root says of the ranges of its unit (DWARF 5, 2.17).

ghost use Rattle.gimli_lines_rows.specs.Calls.{ReturnsAs, ReturnsAsOrNoMemory};
ghost use Rattle.gimli_lines_rows.specs.AttributeValues.{raw_value_of, raw_attribute_of};
ghost use Rattle.addr2line_index.specs.UnitRanges.{low_pc_fact, high_pc_fact, ranges_fact, fact_of};
ghost use Rattle.addr2line_ranges.specs.LastFacts.{range_fact};

use gimli_dwarf::UnitRef;
use gimli_lines_rows::{
    Attribute, AttributeValue, DW_AT_high_pc, DW_AT_low_pc, DW_AT_ranges, Error, RangeListsOffset,
    Reader,
};

/// What an attribute says of ranges.
#[derive(Clone, Copy)]
pub enum Fact<O> {
    BeginsAt(u64),
    EndsAt(u64),
    HasSize(u64),
    /// A range list, if the value stands for one.
    HasList(Option<RangeListsOffset<O>>),
    NoFact,
}

fn low_pc_fact<R: Reader>(
    unit: &UnitRef<'_, R>,
    value: AttributeValue<R>,
) -> Result<Fact<R::Offset>, Error>
    ensures { ReturnsAs (range_fact R.Offset.count) result
        (low_pc_fact unit.now (raw_value_of R.view R.Offset.count value)) }
{
    match &value {
        AttributeValue::Addr(address) => Ok(Fact::BeginsAt(*address)),
        AttributeValue::DebugAddrIndex(index) => Ok(Fact::BeginsAt(unit.address(*index)?)),
        _ => Ok(Fact::NoFact),
    }
}

fn high_pc_fact<R: Reader>(
    unit: &UnitRef<'_, R>,
    value: AttributeValue<R>,
) -> Result<Fact<R::Offset>, Error>
    ensures { ReturnsAs (range_fact R.Offset.count) result
        (high_pc_fact unit.now (raw_value_of R.view R.Offset.count value)) }
{
    match &value {
        AttributeValue::Addr(address) => Ok(Fact::EndsAt(*address)),
        AttributeValue::DebugAddrIndex(index) => Ok(Fact::EndsAt(unit.address(*index)?)),
        AttributeValue::Udata(size) => Ok(Fact::HasSize(*size)),
        _ => Ok(Fact::NoFact),
    }
}

fn ranges_fact<R: Reader>(
    unit: &UnitRef<'_, R>,
    value: AttributeValue<R>,
) -> Result<Fact<R::Offset>, Error>
    ensures { ReturnsAs (range_fact R.Offset.count) result
        (ranges_fact unit.now
        (raw_value_of R.view R.Offset.count value)) }
{
    Ok(Fact::HasList(unit.attr_ranges_offset(value)?))
}

/// What an attribute says of ranges, or why the address or the list that it names can't be read.
pub fn fact_of<R: Reader>(
    unit: &UnitRef<'_, R>,
    attribute: &Attribute<R>,
) -> Result<Fact<R::Offset>, Error>
    ensures { ReturnsAsOrNoMemory (range_fact R.Offset.count) result
        (fact_of unit.now
        (raw_attribute_of R.view R.Offset.count attribute.now)) }
{
    let name = attribute.name();
    if name == DW_AT_low_pc {
        low_pc_fact(unit, attribute.value()?)
    } else if name == DW_AT_high_pc {
        high_pc_fact(unit, attribute.value()?)
    } else if name == DW_AT_ranges {
        ranges_fact(unit, attribute.value()?)
    } else {
        Ok(Fact::NoFact)
    }
}
