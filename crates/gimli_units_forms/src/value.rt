use gimli_core_abbrev::{
    DebugAddrBase, DebugAddrIndex, DebugInfoOffset, DebugLineOffset, DebugLineStrOffset,
    DebugLocListsBase, DebugLocListsIndex, DebugRngListsBase, DebugRngListsIndex, DebugStrOffset,
    DebugStrOffsetsBase, DebugStrOffsetsIndex, DebugTypeSignature, DwAt, DwForm, DwLang, DwoId,
    Expression, RawRangeListsOffset, Reader, UnitOffset,
};

/// An attribute of an entry: its name, the form in which its value is spelled, and the value.
pub struct Attribute<R: Reader> {
    pub(crate) name: DwAt,
    pub(crate) form: DwForm,
    pub(crate) value: AttributeValue<R>,
}

// Most values hold no bytes. Here one test finds those that do; a derived drop jumps to a branch
// of its own for each of the three kinds.
impl<R: Reader> Drop for Attribute<R> {
    #[inline(always)]
    fn drop(self) {
        let Attribute {
            name: _,
            form: _,
            value,
        } = self;
        match value {
            AttributeValue::Block(_bytes)
            | AttributeValue::String(_bytes)
            | AttributeValue::Exprloc(Expression(_bytes)) => {}
            _ => {}
        }
    }
}

/// The value of an attribute.
#[derive(Drop)]
pub enum AttributeValue<R: Reader, Offset = <R as Reader>::Offset> {
    /// An address of the target.
    Addr(u64),
    /// Bytes.
    Block(R),
    /// A number of one byte, whose kind the attribute's name decides.
    Data1(u8),
    Data2(u16),
    Data4(u32),
    Data8(u64),
    Data16(u128),
    Sdata(i64),
    Udata(u64),
    Exprloc(Expression<R>),
    Flag(bool),
    SecOffset(Offset),
    DebugAddrBase(DebugAddrBase<Offset>),
    DebugAddrIndex(DebugAddrIndex<Offset>),
    UnitRef(UnitOffset<Offset>),
    DebugInfoRef(DebugInfoOffset<Offset>),
    DebugInfoRefSup(DebugInfoOffset<Offset>),
    DebugLineRef(DebugLineOffset<Offset>),
    DebugLocListsBase(DebugLocListsBase<Offset>),
    DebugLocListsIndex(DebugLocListsIndex<Offset>),
    RangeListsRef(RawRangeListsOffset<Offset>),
    DebugRngListsBase(DebugRngListsBase<Offset>),
    DebugRngListsIndex(DebugRngListsIndex<Offset>),
    DebugTypesRef(DebugTypeSignature),
    DebugStrRef(DebugStrOffset<Offset>),
    DebugStrRefSup(DebugStrOffset<Offset>),
    DebugStrOffsetsBase(DebugStrOffsetsBase<Offset>),
    DebugStrOffsetsIndex(DebugStrOffsetsIndex<Offset>),
    DebugLineStrRef(DebugLineStrOffset<Offset>),
    String(R),
    Language(DwLang),
    FileIndex(u64),
    DwoId(DwoId),
}
