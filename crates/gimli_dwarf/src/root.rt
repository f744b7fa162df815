//! What the root entry of a unit says.

ghost use Rattle.std.specs.Prelude.{◌≡◌, ◌==◌, Ok, option_map};
ghost use Rattle.std.specs.Option.{option_or};
ghost use Rattle.gimli_dwarf_spec.specs.Calls.{ReturnsAsOrNoMemory, ReturnsOrNoMemory};
ghost use Rattle.gimli_dwarf_spec.specs.AttributeValues.{raw_value_of, raw_attribute_of};
ghost use Rattle.gimli_dwarf_spec.specs.EntryViews.{entry_of, raw_attributes};
ghost use Rattle.gimli_dwarf_spec.specs.UnitFacts.{root, value_of_kind, any_value};
ghost use Rattle.gimli_dwarf.specs.BareUnits.{root_code};
ghost use Rattle.gimli_dwarf.specs.RootBases.{names_base, offset_of_base};
ghost use Rattle.gimli_dwarf.specs.RootValues.{named_value, no_values, root_values, bases_in, with_attribute};

use gimli_dwarf_spec::{
    Abbreviations, Attribute, AttributeValue, DW_AT_GNU_addr_base, DW_AT_GNU_dwo_id,
    DW_AT_GNU_ranges_base, DW_AT_addr_base, DW_AT_comp_dir, DW_AT_loclists_base, DW_AT_low_pc,
    DW_AT_name, DW_AT_rnglists_base, DW_AT_stmt_list, DW_AT_str_offsets_base, DebugAddrBase,
    DebugLocListsBase, DebugRngListsBase, DebugStrOffsetsBase, DebuggingInformationEntry,
    DefaultBase, DwAt, DwarfFileType, Encoding, Error, Reader, ReaderOffset, UnitHeader,
    entries_raw, first_code,
};
use std::alloc::Global;
use std::marker::Model;

// Reads the first entry of a unit in place of another; `MissingUnitDie` where it is null or there
// is none.
pub(crate) fn read_root<R: Reader>(
    header: &UnitHeader<R>,
    abbreviations: &Abbreviations,
    entry: &mut DebuggingInformationEntry<R>,
) -> Result<(), Error>
    ensures { ReturnsAsOrNoMemory (λ _. entry_of R.view R.Offset.count entry.new) result
        (root R.Offset.limit header.now abbreviations.now) }
{
    let mut entries = entries_raw(header, abbreviations, None)?;
    if entries.is_empty() {
        return Err(Error::MissingUnitDie);
    }
    if !entries.read_entry(entry)? {
        return Err(Error::MissingUnitDie);
    }
    Ok(())
}

// The first entry of a unit; `MissingUnitDie` where it is null or there is none.
pub(crate) fn root_entry<R: Reader>(
    alloc: Global,
    header: &UnitHeader<R>,
    abbreviations: &Abbreviations,
) -> Result<DebuggingInformationEntry<R>, Error>
    ensures { ReturnsAsOrNoMemory (entry_of R.view R.Offset.count) result
        (root R.Offset.limit header.now abbreviations.now) }
{
    let mut entry = DebuggingInformationEntry::null(alloc);
    read_root(header, abbreviations, &mut entry)?;
    Ok(entry)
}

// The code of a unit's root; 0, which no declaration has, where it can't be read.
pub(crate) fn root_code<R: Reader>(header: &UnitHeader<R>) -> u64
    ensures { result ≡ root_code header.now }
{
    first_code(header).unwrap_or(0)
}

// An offset that a root names for its unit: of its line number program, or of the first entry of a
// table.
#[derive(Clone, Copy)]
pub(crate) enum Base {
    Line,
    StrOffsets,
    Addr,
    LocLists,
    RngLists,
}

impl Base {
    fn is_named(self, name: DwAt) -> bool
        ensures { result ≡ names_base self name.0 }
    {
        match self {
            Base::Line => name == DW_AT_stmt_list,
            Base::StrOffsets => name == DW_AT_str_offsets_base,
            Base::Addr => name == DW_AT_addr_base || name == DW_AT_GNU_addr_base,
            Base::LocLists => name == DW_AT_loclists_base,
            Base::RngLists => name == DW_AT_rnglists_base || name == DW_AT_GNU_ranges_base,
        }
    }

    fn offset_in<R: Reader>(self, value: &AttributeValue<R>) -> Option<R::Offset>
        ensures { option_map R.Offset.count result
            ≡ offset_of_base self (raw_value_of R.view R.Offset.count value.now) }
    {
        match self {
            Base::Line => match value {
                AttributeValue::DebugLineRef(offset) => Some(offset.0),
                _ => None,
            },
            Base::StrOffsets => match value {
                AttributeValue::DebugStrOffsetsBase(base) => Some(base.0),
                _ => None,
            },
            Base::Addr => match value {
                AttributeValue::DebugAddrBase(base) => Some(base.0),
                _ => None,
            },
            Base::LocLists => match value {
                AttributeValue::DebugLocListsBase(base) => Some(base.0),
                _ => None,
            },
            Base::RngLists => match value {
                AttributeValue::DebugRngListsBase(base) => Some(base.0),
                _ => None,
            },
        }
    }
}

// The offset in an attribute, where it fits the base.
fn offset_in<R: Reader>(attr: &Attribute<R>, base: Base) -> Result<Option<R::Offset>, Error>
    ensures { ReturnsAsOrNoMemory (option_map R.Offset.count) result
        (Ok (offset_of_base base (named_value
        (raw_attribute_of R.view R.Offset.count attr.now)))) }
{
    Ok(base.offset_in(&attr.value()?))
}

// What the attributes of a root say of its unit, read in one pass: the values of the last of some
// names, and the offsets in the last that name a line number program or a base, and fit.
#[derive(Drop)]
pub(crate) struct RootAttributes<R: Reader> {
    pub(crate) name: Option<AttributeValue<R>>,
    pub(crate) comp_dir: Option<AttributeValue<R>>,
    pub(crate) low_pc: Option<AttributeValue<R>>,
    pub(crate) dwo_id: Option<AttributeValue<R>>,
    pub(crate) line: Option<R::Offset>,
    pub(crate) str_offsets: Option<R::Offset>,
    pub(crate) addr: Option<R::Offset>,
    pub(crate) loclists: Option<R::Offset>,
    pub(crate) rnglists: Option<R::Offset>,
}

impl<R: Reader> Model for RootAttributes<R> {
    ghost use Rattle.std.specs.Prelude.{option_map};
    ghost use Rattle.gimli_dwarf_spec.specs.AttributeValues.{raw_value_of};
    ghost use Rattle.gimli_dwarf.specs.RootValues.{RootValues};

    ghost Value = { RootValues };

    ghost view = { λ r. record {
      name = option_map (raw_value_of R.view R.Offset.count) r.name;
      comp_dir = option_map (raw_value_of R.view R.Offset.count) r.comp_dir;
      low_pc = option_map (raw_value_of R.view R.Offset.count) r.low_pc;
      dwo_id = option_map (raw_value_of R.view R.Offset.count) r.dwo_id;
      line = option_map R.Offset.count r.line;
      str_offsets = option_map R.Offset.count r.str_offsets;
      addr = option_map R.Offset.count r.addr;
      loclists = option_map R.Offset.count r.loclists;
      rnglists = option_map R.Offset.count r.rnglists;
    } };
}

// Keeps an attribute's value, if it has this name.
fn keep_value<R: Reader>(
    found: &mut Option<AttributeValue<R>>,
    attr: &Attribute<R>,
    name: DwAt,
) -> Result<(), Error>
    ensures { ReturnsAsOrNoMemory
        (λ _. option_map (raw_value_of R.view R.Offset.count) found.new) result
        (Ok (option_or (value_of_kind any_value (λ n. n == name.0)
        (raw_attribute_of R.view R.Offset.count attr.now))
        (option_map (raw_value_of R.view R.Offset.count) found.old))) }
{
    if attr.name() == name {
        *found = Some(attr.value()?);
    }
    Ok(())
}

// Keeps the offset in an attribute, if it names the base, and fits it.
fn keep_offset<R: Reader>(
    found: &mut Option<R::Offset>,
    attr: &Attribute<R>,
    base: Base,
) -> Result<(), Error>
    ensures { ReturnsAsOrNoMemory (λ _. option_map R.Offset.count found.new) result
        (Ok (option_or (value_of_kind (offset_of_base base) (names_base base)
        (raw_attribute_of R.view R.Offset.count attr.now))
        (option_map R.Offset.count found.old))) }
{
    if !base.is_named(attr.name()) {
        return Ok(());
    }
    if let Some(offset) = offset_in(attr, base)? {
        *found = Some(offset);
    }
    Ok(())
}

impl<R: Reader> RootAttributes<R> {
    // What these attributes say.
    pub(crate) fn read(attrs: &[Attribute<R>]) -> Result<Self, Error>
        ensures { ReturnsOrNoMemory result
            (Ok (root_values (raw_attributes R.view R.Offset.count attrs.now))) }
    {
        let mut found = RootAttributes::none();
        for attr in attrs {
            found.keep(attr)?;
        }
        Ok(found)
    }

    fn none() -> Self
        ensures { result ≡ no_values }
    {
        RootAttributes {
            name: None,
            comp_dir: None,
            low_pc: None,
            dwo_id: None,
            line: None,
            str_offsets: None,
            addr: None,
            loclists: None,
            rnglists: None,
        }
    }

    // Takes what one more attribute says.
    fn keep(&mut self, attr: &Attribute<R>) -> Result<(), Error>
        ensures { ReturnsAsOrNoMemory (λ _. self.new) result
            (Ok (with_attribute (raw_attribute_of R.view R.Offset.count attr.now) self.old)) }
    {
        keep_value(&mut self.name, attr, DW_AT_name)?;
        keep_value(&mut self.comp_dir, attr, DW_AT_comp_dir)?;
        keep_value(&mut self.low_pc, attr, DW_AT_low_pc)?;
        keep_value(&mut self.dwo_id, attr, DW_AT_GNU_dwo_id)?;
        keep_offset(&mut self.line, attr, Base::Line)?;
        keep_offset(&mut self.str_offsets, attr, Base::StrOffsets)?;
        keep_offset(&mut self.addr, attr, Base::Addr)?;
        keep_offset(&mut self.loclists, attr, Base::LocLists)?;
        keep_offset(&mut self.rnglists, attr, Base::RngLists)
    }
}

// Where the tables of a unit begin: the bases that its root names, and else the default ones.
#[derive(Drop)]
pub(crate) struct UnitBases<R: Reader> {
    pub(crate) encoding: Encoding,
    pub(crate) str_offsets: DebugStrOffsetsBase<R::Offset>,
    pub(crate) addr: DebugAddrBase<R::Offset>,
    pub(crate) loclists: DebugLocListsBase<R::Offset>,
    pub(crate) rnglists: DebugRngListsBase<R::Offset>,
}

impl<R: Reader> Model for UnitBases<R> {
    ghost use Rattle.gimli_dwarf_spec.specs.Attributes.{Bases};

    ghost Value = { Bases };

    ghost view = { λ b. record {
      encoding = b.encoding;
      low_pc = 0;
      str_offsets_base = R.Offset.count b.str_offsets.0;
      addr_base = R.Offset.count b.addr.0;
      loclists_base = R.Offset.count b.loclists.0;
      rnglists_base = R.Offset.count b.rnglists.0;
    } };
}

impl<R: Reader> UnitBases<R> {
    // Those of a unit whose root says this.
    pub(crate) fn new(
        file_type: DwarfFileType,
        header: &UnitHeader<R>,
        found: &RootAttributes<R>,
    ) -> Self
        ensures { result ≡ bases_in file_type header.now.encoding found.now }
    {
        let encoding = header.encoding();
        let strings = DebugStrOffsetsBase::default_for_encoding_and_file(encoding, file_type);
        let locations = DebugLocListsBase::default_for_encoding_and_file(encoding, file_type);
        let ranges = DebugRngListsBase::default_for_encoding_and_file(encoding, file_type);
        UnitBases {
            encoding,
            str_offsets: DebugStrOffsetsBase(found.str_offsets.unwrap_or(strings.0)),
            addr: DebugAddrBase(found.addr.unwrap_or(R::Offset::from_u8(0))),
            loclists: DebugLocListsBase(found.loclists.unwrap_or(locations.0)),
            rnglists: DebugRngListsBase(found.rnglists.unwrap_or(ranges.0)),
        }
    }
}
