//! What values of attributes stand for in their sections.

ghost use Rattle.std.specs.Prelude.{◌≢◌, ◌≤◌, length, IsTrue, IfOk, option_map, Err};
ghost use Rattle.gimli_dwarf_spec.specs.View.{bytes_left};
ghost use Rattle.gimli_dwarf_spec.specs.Calls.{ReturnsAs, Returns, ReturnsAsOrNoMemory, ReturnsOrNoMemory};
ghost use Rattle.gimli_dwarf_spec.specs.Error.TheVariants.{Memory};
ghost use Rattle.gimli_dwarf_spec.specs.AttributeValues.{raw_value_of};
ghost use Rattle.gimli_dwarf_spec.specs.ListSections.{ranges_to_come};
ghost use Rattle.gimli_dwarf_spec.specs.Attributes.{attr_string, indexed_address, attr_address, ranges_offset_from_raw, ranges_offset, attr_ranges_offset, ranges};

use crate::dwarf::Dwarf;
use crate::unit::Unit;
use gimli_dwarf_spec::{
    AttributeValue, DebugAddrIndex, DebugRngListsIndex, DwarfFileType, Error, RangeListsOffset,
    RawRangeListsOffset, Reader, ReaderOffset, RngListIter,
};

impl<R: Reader> Dwarf<R> {
    /// The text that a value of one of the unit's attributes stands for (DWARF 5, 7.5.5): one in
    /// the entry, in `.debug_str`, in `.debug_line_str`, by an index, or in the supplement's
    /// `.debug_str`; else `ExpectedStringAttributeValue`. Takes memory only where a copy of the
    /// reader does.
    pub fn attr_string(&self, unit: &Unit<R>, attr: AttributeValue<R>) -> Result<R, Error>
        ensures value { ReturnsAsOrNoMemory R.view result
            (attr_string self.now.file unit.now.bases
            (raw_value_of R.view R.Offset.count attr)) }
        // Where copies take no memory, this takes none.
        ensures free { IsTrue R.copies_freely
            → ReturnsAs R.view result (attr_string self.now.file unit.now.bases
            (raw_value_of R.view R.Offset.count attr)) }
    {
        match attr {
            AttributeValue::String(string) => Ok(string),
            AttributeValue::DebugStrRef(offset) => self.string(offset),
            AttributeValue::DebugStrRefSup(offset) => self.supplement_string(offset),
            AttributeValue::DebugLineStrRef(offset) => self.debug_line_str.get_str(offset),
            AttributeValue::DebugStrOffsetsIndex(index) => {
                let format = unit.header.format();
                let offset = self
                    .debug_str_offsets
                    .get_str_offset(format, unit.str_offsets_base, index)?;
                self.string(offset)
            }
            _ => Err(Error::ExpectedStringAttributeValue),
        }
    }

    /// The address that an index stands for (DWARF 5, 7.27). Takes no memory.
    pub fn address(&self, unit: &Unit<R>, index: DebugAddrIndex<R::Offset>) -> Result<u64, Error>
        ensures { Returns result
            (indexed_address self.now.file unit.now.bases (R.Offset.count index.0)) }
    {
        let size = unit.header.address_size();
        self.debug_addr.get_address(size, unit.addr_base, index)
    }

    /// The address that a value of an attribute stands for, if it is one, of itself or by an index.
    /// Takes no memory.
    pub fn attr_address(
        &self,
        unit: &Unit<R>,
        attr: AttributeValue<R>,
    ) -> Result<Option<u64>, Error>
        ensures { Returns result
            (attr_address self.now.file unit.now.bases (raw_value_of R.view R.Offset.count attr)) }
    {
        match &attr {
            AttributeValue::Addr(address) => Ok(Some(*address)),
            AttributeValue::DebugAddrIndex(index) => Ok(Some(self.address(unit, *index)?)),
            _ => Ok(None),
        }
    }

    /// The offset of a range list as one of its section: in a split file up to version 4 it counts
    /// from the base that the main file's unit names. Refused is a sum that passes 64 bits or isn't
    /// an offset. Takes no memory.
    pub fn ranges_offset_from_raw(
        &self,
        unit: &Unit<R>,
        offset: RawRangeListsOffset<R::Offset>,
    ) -> Result<RangeListsOffset<R::Offset>, Error>
        ensures { ReturnsAs (λ o. R.Offset.count o.0) result
            (ranges_offset_from_raw self.now.file unit.now.bases
            (R.Offset.count offset.0)) }
    {
        if self.file_type == DwarfFileType::Dwo && unit.header.version() < 5 {
            let sum = unit
                .rnglists_base
                .0
                .into_u64()
                .checked_add(offset.0.into_u64())
                .ok_or(Error::OffsetSumOverflow)?;
            Ok(RangeListsOffset(R::Offset::from_u64(sum)?))
        } else {
            Ok(RangeListsOffset(offset.0))
        }
    }

    /// The offset of the range list that an index stands for (DWARF 5, 7.28). Takes no memory.
    pub fn ranges_offset(
        &self,
        unit: &Unit<R>,
        index: DebugRngListsIndex<R::Offset>,
    ) -> Result<RangeListsOffset<R::Offset>, Error>
        ensures { ReturnsAs (λ o. R.Offset.count o.0) result
            (ranges_offset self.now.file unit.now.bases (R.Offset.count index.0)) }
    {
        let encoding = unit.header.encoding();
        self.ranges.get_offset(encoding, unit.rnglists_base, index)
    }

    /// The offset of the range list that a value of an attribute stands for, if it stands for one.
    /// Takes no memory.
    pub fn attr_ranges_offset(
        &self,
        unit: &Unit<R>,
        attr: AttributeValue<R>,
    ) -> Result<Option<RangeListsOffset<R::Offset>>, Error>
        ensures { ReturnsAs (option_map (λ o. R.Offset.count o.0)) result
            (attr_ranges_offset self.now.file unit.now.bases
            (raw_value_of R.view R.Offset.count attr)) }
    {
        match &attr {
            AttributeValue::RangeListsRef(offset) => {
                Ok(Some(self.ranges_offset_from_raw(unit, *offset)?))
            }
            AttributeValue::DebugRngListsIndex(index) => Ok(Some(self.ranges_offset(
                unit, *index,
            )?)),
            _ => Ok(None),
        }
    }

    /// The ranges of the list at an offset. Takes memory only where copies of readers do.
    pub fn ranges(
        &self,
        unit: &Unit<R>,
        offset: RangeListsOffset<R::Offset>,
    ) -> Result<RngListIter<R>, Error>
        ensures value { ReturnsOrNoMemory result
            (ranges self.now.file unit.now.bases (R.Offset.count offset.0)) }
        ensures free { IsTrue R.copies_freely → result ≢ Err Memory }
        // There are no more of them, refusals among them, than bytes.
        ensures few { IfOk result
            (λ ranges. length (ranges_to_come R.Offset.limit ranges) ≤ bytes_left ranges.raw.rest) }
    {
        let encoding = unit.header.encoding();
        self.ranges.ranges(
            offset,
            encoding,
            unit.low_pc,
            &self.debug_addr,
            unit.addr_base,
        )
    }
}
