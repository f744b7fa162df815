ghost use Rattle.std.specs.Prelude.{◌≡◌, ℕ, ◌<◌, ◌↔◌, Some, Result, Ok, IfErr, IsOk, IsTrue, option_map};
ghost use Rattle.gimli_core_abbrev.specs.Calls.{ReturnsAsOrNoMemory};
ghost use Rattle.gimli_core_abbrev.specs.Error.TheVariants.{Memory};
ghost use Rattle.gimli_units_forms.specs.AttributeValues.{RawValue, raw_value_of, raw_attribute_of};
ghost use Rattle.gimli_units_forms.specs.AttributeMeanings.{unsigned_of, unsigned_8_of, unsigned_16_of, signed_of, offset_of, expression_of, text_of, conversion_under, value_under};

use crate::value::{Attribute, AttributeValue};
use gimli_core_abbrev::{
    DW_AT_GNU_addr_base, DW_AT_GNU_dwo_id, DW_AT_GNU_ranges_base, DW_AT_addr_base,
    DW_AT_call_column, DW_AT_call_file, DW_AT_call_line, DW_AT_high_pc, DW_AT_language,
    DW_AT_loclists_base, DW_AT_ranges, DW_AT_rnglists_base, DW_AT_stmt_list,
    DW_AT_str_offsets_base, DebugAddrBase, DebugLineOffset, DebugLocListsBase, DebugRngListsBase,
    DebugStr, DebugStrOffsetsBase, DwAt, DwForm, DwLang, DwoId, Error, Expression,
    RawRangeListsOffset, Reader,
};

impl<R: Reader> AttributeValue<R> {
    /// The unsigned number, where it fits eight bits.
    pub fn u8_value(&self) -> Option<u8>
        ensures { result ≡ unsigned_8_of (raw_value_of R.view R.Offset.count self.now) }
    {
        u8::try_from(self.udata_value()?).ok()
    }

    /// The unsigned number, where it fits sixteen bits.
    pub fn u16_value(&self) -> Option<u16>
        ensures { result ≡ unsigned_16_of (raw_value_of R.view R.Offset.count self.now) }
    {
        u16::try_from(self.udata_value()?).ok()
    }

    /// The unsigned number: data of up to eight bytes, or a LEB128 number that isn't negative.
    pub fn udata_value(&self) -> Option<u64>
        ensures { result ≡ unsigned_of (raw_value_of R.view R.Offset.count self.now) }
    {
        match self {
            AttributeValue::Data1(number) => Some(u64::from(*number)),
            AttributeValue::Data2(number) => Some(u64::from(*number)),
            AttributeValue::Data4(number) => Some(u64::from(*number)),
            AttributeValue::Data8(number) => Some(*number),
            AttributeValue::Udata(number) => Some(*number),
            AttributeValue::Sdata(number) => u64::try_from(*number).ok(),
            _ => None,
        }
    }

    /// The signed number: data as two's complement of its own width.
    pub fn sdata_value(&self) -> Option<i64>
        ensures { result ≡ signed_of (raw_value_of R.view R.Offset.count self.now) }
    {
        match self {
            AttributeValue::Data1(number) => Some(i64::from(number.cast_signed())),
            AttributeValue::Data2(number) => Some(i64::from(number.cast_signed())),
            AttributeValue::Data4(number) => Some(i64::from(number.cast_signed())),
            AttributeValue::Data8(number) => Some(number.cast_signed()),
            AttributeValue::Sdata(number) => Some(*number),
            AttributeValue::Udata(number) => i64::try_from(*number).ok(),
            _ => None,
        }
    }

    /// The offset into another section.
    pub fn offset_value(&self) -> Option<R::Offset>
        ensures { option_map R.Offset.count result
            ≡ offset_of (raw_value_of R.view R.Offset.count self.now) }
    {
        match self {
            AttributeValue::SecOffset(offset) => Some(*offset),
            _ => None,
        }
    }

    /// A copy of the bytes of an expression, which was a block before version 4.
    pub fn exprloc_value(&self) -> Result<Option<Expression<R>>, Error>
        ensures value { ReturnsAsOrNoMemory (option_map (λ e. R.view e.0)) result
            (Ok (expression_of (raw_value_of R.view R.Offset.count self.now))) }
        ensures free { IsTrue R.copies_freely → IsOk result }
    {
        match self {
            AttributeValue::Exprloc(expression) => Ok(Some(Expression(expression.0.copy()?))),
            AttributeValue::Block(bytes) => Ok(Some(Expression(bytes.copy()?))),
            _ => Ok(None),
        }
    }

    /// A copy of the text, which is in the entry or in `.debug_str`. None where there is none, or
    /// where it can't be read; refused only where memory runs out.
    pub fn string_value(&self, debug_str: &DebugStr<R>) -> Result<Option<R>, Error>
        ensures value { ReturnsAsOrNoMemory (option_map R.view) result
            (Ok (text_of debug_str.now (raw_value_of R.view R.Offset.count self.now))) }
        ensures free { IsTrue R.copies_freely → IsOk result }
        ensures refusal { IfErr result (λ e. e ≡ Memory) }
    {
        match self {
            AttributeValue::String(text) => Ok(Some(text.copy()?)),
            AttributeValue::DebugStrRef(offset) => match debug_str.get_str(*offset) {
                Ok(text) => Ok(Some(text)),
                Err(Error::Memory) => Err(Error::Memory),
                Err(_) => Ok(None),
            },
            _ => Ok(None),
        }
    }

    // The value that a name makes of this one, where it fits.
    fn conversion_under(&self, name: DwAt) -> Option<AttributeValue<R>>
        ensures { option_map (raw_value_of R.view R.Offset.count) result
            ≡ conversion_under name.0 (raw_value_of R.view R.Offset.count self.now) }
    {
        Some(match name {
            DW_AT_stmt_list => AttributeValue::DebugLineRef(DebugLineOffset(self.offset_value()?)),
            DW_AT_high_pc | DW_AT_call_column | DW_AT_call_line => {
                AttributeValue::Udata(self.udata_value()?)
            }
            DW_AT_language => AttributeValue::Language(DwLang(self.u16_value()?)),
            DW_AT_ranges => AttributeValue::RangeListsRef(RawRangeListsOffset(
                self.offset_value()?,
            )),
            DW_AT_call_file => AttributeValue::FileIndex(self.udata_value()?),
            DW_AT_str_offsets_base => {
                AttributeValue::DebugStrOffsetsBase(DebugStrOffsetsBase(self.offset_value()?))
            }
            DW_AT_loclists_base => {
                AttributeValue::DebugLocListsBase(DebugLocListsBase(self.offset_value()?))
            }
            DW_AT_addr_base | DW_AT_GNU_addr_base => {
                AttributeValue::DebugAddrBase(DebugAddrBase(self.offset_value()?))
            }
            DW_AT_rnglists_base | DW_AT_GNU_ranges_base => {
                AttributeValue::DebugRngListsBase(DebugRngListsBase(self.offset_value()?))
            }
            DW_AT_GNU_dwo_id => AttributeValue::DwoId(DwoId(self.udata_value()?)),
            _ => return None,
        })
    }
}

impl<R: Reader> AttributeValue<R> {
    /// A second value of the same bytes. Only one that has bytes may need memory.
    pub fn copy(&self) -> Result<AttributeValue<R>, Error>
        ensures value { ReturnsAsOrNoMemory (raw_value_of R.view R.Offset.count) result
            (Ok (raw_value_of R.view R.Offset.count self.now)) }
        ensures free { IsTrue R.copies_freely → IsOk result }
    {
        Ok(match self {
            AttributeValue::Addr(address) => AttributeValue::Addr(*address),
            AttributeValue::Block(bytes) => AttributeValue::Block(bytes.copy()?),
            AttributeValue::Data1(number) => AttributeValue::Data1(*number),
            AttributeValue::Data2(number) => AttributeValue::Data2(*number),
            AttributeValue::Data4(number) => AttributeValue::Data4(*number),
            AttributeValue::Data8(number) => AttributeValue::Data8(*number),
            AttributeValue::Data16(number) => AttributeValue::Data16(*number),
            AttributeValue::Sdata(number) => AttributeValue::Sdata(*number),
            AttributeValue::Udata(number) => AttributeValue::Udata(*number),
            AttributeValue::Exprloc(expression) => {
                AttributeValue::Exprloc(Expression(expression.0.copy()?))
            }
            AttributeValue::Flag(flag) => AttributeValue::Flag(*flag),
            AttributeValue::SecOffset(offset) => AttributeValue::SecOffset(*offset),
            AttributeValue::DebugAddrBase(base) => AttributeValue::DebugAddrBase(*base),
            AttributeValue::DebugAddrIndex(index) => AttributeValue::DebugAddrIndex(*index),
            AttributeValue::UnitRef(offset) => AttributeValue::UnitRef(*offset),
            AttributeValue::DebugInfoRef(offset) => AttributeValue::DebugInfoRef(*offset),
            AttributeValue::DebugInfoRefSup(offset) => AttributeValue::DebugInfoRefSup(*offset),
            AttributeValue::DebugLineRef(offset) => AttributeValue::DebugLineRef(*offset),
            AttributeValue::DebugLocListsBase(base) => AttributeValue::DebugLocListsBase(*base),
            AttributeValue::DebugLocListsIndex(index) => AttributeValue::DebugLocListsIndex(*index),
            AttributeValue::RangeListsRef(offset) => AttributeValue::RangeListsRef(*offset),
            AttributeValue::DebugRngListsBase(base) => AttributeValue::DebugRngListsBase(*base),
            AttributeValue::DebugRngListsIndex(index) => AttributeValue::DebugRngListsIndex(*index),
            AttributeValue::DebugTypesRef(signature) => AttributeValue::DebugTypesRef(*signature),
            AttributeValue::DebugStrRef(offset) => AttributeValue::DebugStrRef(*offset),
            AttributeValue::DebugStrRefSup(offset) => AttributeValue::DebugStrRefSup(*offset),
            AttributeValue::DebugStrOffsetsBase(base) => AttributeValue::DebugStrOffsetsBase(*base),
            AttributeValue::DebugStrOffsetsIndex(index) => {
                AttributeValue::DebugStrOffsetsIndex(*index)
            }
            AttributeValue::DebugLineStrRef(offset) => AttributeValue::DebugLineStrRef(*offset),
            AttributeValue::String(text) => AttributeValue::String(text.copy()?),
            AttributeValue::Language(language) => AttributeValue::Language(*language),
            AttributeValue::FileIndex(index) => AttributeValue::FileIndex(*index),
            AttributeValue::DwoId(id) => AttributeValue::DwoId(*id),
        })
    }
}

impl<R: Reader> Attribute<R> {
    /// The attribute's name.
    pub fn name(&self) -> DwAt
        ensures { result.0 ≡ (raw_attribute_of R.view R.Offset.count self.now).name }
    {
        self.name
    }

    /// The form in which the value is spelled, after `DW_FORM_indirect` the one that follows.
    pub fn form(&self) -> DwForm
        ensures { result.0 ≡ (raw_attribute_of R.view R.Offset.count self.now).form }
    {
        self.form
    }

    /// A copy of the value as the form gives it.
    pub fn raw_value(&self) -> Result<AttributeValue<R>, Error>
        ensures value { ReturnsAsOrNoMemory (raw_value_of R.view R.Offset.count) result
            (Ok (raw_attribute_of R.view R.Offset.count self.now).value) }
        ensures free { IsTrue R.copies_freely → IsOk result }
    {
        self.value.copy()
    }

    /// The value as the form gives it, lent: copies nothing.
    pub fn raw_value_ref(&self) -> &AttributeValue<R>
        ensures { raw_value_of R.view R.Offset.count result.now
            ≡ (raw_attribute_of R.view R.Offset.count self.now).value }
    {
        &self.value
    }

    /// The value that the attribute's name makes of it, and where it doesn't fit a copy of the
    /// value as the form gives it.
    pub fn value(&self) -> Result<AttributeValue<R>, Error>
        ensures value { let a = raw_attribute_of R.view R.Offset.count self.now in
            ReturnsAsOrNoMemory (raw_value_of R.view R.Offset.count) result
            (Ok (value_under a.name a.value)) }
        ensures free { IsTrue R.copies_freely → IsOk result }
    {
        match self.value.conversion_under(self.name) {
            Some(value) => Ok(value),
            None => self.value.copy(),
        }
    }

    /// The unsigned number of the value, where it fits eight bits.
    pub fn u8_value(&self) -> Option<u8>
        ensures { result ≡ unsigned_8_of (raw_attribute_of R.view R.Offset.count self.now).value }
    {
        self.value.u8_value()
    }

    /// The unsigned number of the value, where it fits sixteen bits.
    pub fn u16_value(&self) -> Option<u16>
        ensures { result ≡ unsigned_16_of
            (raw_attribute_of R.view R.Offset.count self.now).value }
    {
        self.value.u16_value()
    }

    /// The unsigned number of the value.
    pub fn udata_value(&self) -> Option<u64>
        ensures { result ≡ unsigned_of (raw_attribute_of R.view R.Offset.count self.now).value }
    {
        self.value.udata_value()
    }

    /// The signed number of the value.
    pub fn sdata_value(&self) -> Option<i64>
        ensures { result ≡ signed_of (raw_attribute_of R.view R.Offset.count self.now).value }
    {
        self.value.sdata_value()
    }

    /// The offset into another section that the value is.
    pub fn offset_value(&self) -> Option<R::Offset>
        ensures { option_map R.Offset.count result
            ≡ offset_of (raw_attribute_of R.view R.Offset.count self.now).value }
    {
        self.value.offset_value()
    }

    /// A copy of the text that the value is, which is in the entry or in `.debug_str`.
    pub fn string_value(&self, debug_str: &DebugStr<R>) -> Result<Option<R>, Error>
        ensures value { ReturnsAsOrNoMemory (option_map R.view) result
            (Ok (text_of debug_str.now (raw_attribute_of R.view R.Offset.count self.now).value)) }
        ensures free { IsTrue R.copies_freely → IsOk result }
        ensures refusal { IfErr result (λ e. e ≡ Memory) }
    {
        self.value.string_value(debug_str)
    }

    /// A copy of the bytes of the expression that the value is.
    pub fn exprloc_value(&self) -> Result<Option<Expression<R>>, Error>
        ensures value { ReturnsAsOrNoMemory (option_map (λ e. R.view e.0)) result
            (Ok (expression_of (raw_attribute_of R.view R.Offset.count self.now).value)) }
        ensures free { IsTrue R.copies_freely → IsOk result }
    {
        self.value.exprloc_value()
    }
}

/// A value has a number of eight bits exactly where it has an unsigned number below 256, and it is
/// that number.
pub fn bytes_are_small_numbers()
    ensures { (value : RawValue) (n : ℕ) → (unsigned_8_of value ≡ Some n)
        ↔ ((unsigned_of value ≡ Some n) × (n < 256)) }
{}
