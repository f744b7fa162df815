//! A unit and the facts of its root.

ghost use Rattle.std.specs.Prelude.{◌≡◌, ◌≢◌, [], None, Ok, Err, IfOk, IfErr, OnOk, Option, Some, option_map, option_and_then};
ghost use Rattle.std.specs.Option.{option_or};
ghost use Rattle.gimli_dwarf_spec.specs.Calls.{Returns, ReturnsAsOrNoMemory, ReturnsOrNoMemory};
ghost use Rattle.gimli_dwarf_spec.specs.Error.TheVariants.{Memory};
ghost use Rattle.gimli_dwarf_spec.specs.Results.{refusal_of};
ghost use Rattle.gimli_dwarf_spec.specs.View.{View};
ghost use Rattle.gimli_dwarf_spec.specs.AttributeValues.{raw_value_of};
ghost use Rattle.gimli_dwarf_spec.specs.EntryViews.{entry_of, raw_attributes};
ghost use Rattle.gimli_dwarf_spec.specs.HeaderParsing.{header_at};
ghost use Rattle.gimli_dwarf_spec.specs.Splitting.{relocated_from};
ghost use Rattle.gimli_dwarf_spec.specs.UnitFacts.{UnitFacts, unit_facts, root, dwo_name, dwo_name_number, facts_of, readable_text, address_or_0, line_header_of, dwo_id_in, dwo_id_of};
ghost use Rattle.gimli_dwarf.specs.BareUnits.{bare, unit_facts_or_bare};
ghost use Rattle.gimli_dwarf.specs.Roots.{facts_without_texts, facts_with_texts, line_unit, facts_with_program};

use crate::dwarf::Dwarf;
use crate::root::{RootAttributes, UnitBases, read_root, root_entry};
use gimli_dwarf_spec::{
    Abbreviations, Attribute, AttributeValue, DW_AT_GNU_dwo_name, DW_AT_dwo_name, DW_AT_stmt_list,
    DebugAddrBase, DebugLineOffset, DebugLocListsBase, DebugRngListsBase, DebugStrOffsetsBase,
    DebuggingInformationEntry, DwAt, DwoId, Error, LineProgramHeader, Reader, UnitHeader, UnitType,
};
use std::alloc::Global;
use std::marker::Model;
use std::rc::Rc;

// The version whose attribute names a split file; GNU's did so before it.
const FIRST_WITH_DWO_NAME: u16 = 5;

/// A unit: its header, the declarations of its entries, and what its root entry says (DWARF 5,
/// 3.1.1). A name or directory that can't be read is none.
#[derive(Drop)]
pub struct Unit<R: Reader> {
    pub header: UnitHeader<R>,
    pub abbreviations: Rc<Abbreviations>,
    pub name: Option<R>,
    pub comp_dir: Option<R>,
    /// Where the unit begins, and what addresses in its lists count from; 0 where the root doesn't
    /// say.
    pub low_pc: u64,
    pub str_offsets_base: DebugStrOffsetsBase<R::Offset>,
    pub addr_base: DebugAddrBase<R::Offset>,
    pub loclists_base: DebugLocListsBase<R::Offset>,
    pub rnglists_base: DebugRngListsBase<R::Offset>,
    /// On the heap, since it is larger than all else.
    pub line_program: Option<Box<LineProgramHeader<R>>>,
    /// The identifier that a skeleton and its split unit share.
    pub dwo_id: Option<DwoId>,
}

impl<R: Reader> Model for Unit<R> {
    ghost use Rattle.std.specs.Prelude.{option_map};
    ghost use Rattle.gimli_dwarf_spec.specs.UnitFacts.{UnitFacts};

    ghost Value = { UnitFacts };

    ghost view = { λ u. record {
      header = u.header;
      table = u.abbreviations.value;
      name = option_map R.view u.name;
      comp_dir = option_map R.view u.comp_dir;
      bases = record {
        encoding = u.header.encoding;
        low_pc = u.low_pc;
        str_offsets_base = R.Offset.count u.str_offsets_base.0;
        addr_base = R.Offset.count u.addr_base.0;
        loclists_base = R.Offset.count u.loclists_base.0;
        rnglists_base = R.Offset.count u.rnglists_base.0;
      };
      line_header = option_map (λ h. h.value) u.line_program;
      dwo_id = option_map (λ id. id.0) u.dwo_id;
    } };
}

impl<R: Reader> Unit<R> {
    /// A unit of a file, with the facts of its root. Refused is a unit whose declarations can't be
    /// read, whose root is missing or can't be read, or whose line header or `low_pc` is refused.
    pub fn new(alloc: Global, dwarf: &Dwarf<R>, header: UnitHeader<R>) -> Result<Self, Error>
        ensures { ReturnsOrNoMemory result (unit_facts dwarf.now.file header) }
    {
        let mut entry = DebuggingInformationEntry::null(alloc);
        Unit::with_root(alloc, dwarf, header, &mut entry)
    }

    /// The same, and its root in place of another entry, whose memory it takes.
    pub fn with_root(
        alloc: Global,
        dwarf: &Dwarf<R>,
        header: UnitHeader<R>,
        entry: &mut DebuggingInformationEntry<R>,
    ) -> Result<Self, Error>
        ensures unit { ReturnsOrNoMemory result (unit_facts dwarf.now.file header) }
        ensures root { IfOk result (λ u. root dwarf.now.file.offset_limit u.header u.table
            ≡ Ok (entry_of R.view R.Offset.count entry.new)) }
    {
        let abbreviations = dwarf.abbreviations(alloc, header.debug_abbrev_offset())?;
        read_root(&header, &abbreviations, entry)?;
        Unit::of_root(alloc, dwarf, header, abbreviations, entry.attrs())
    }

    // The same, or without its declarations and the header of its line number program, which are
    // only checked; and whether it is whole.
    pub(crate) fn or_bare_with_root(
        alloc: Global,
        dwarf: &Dwarf<R>,
        header: UnitHeader<R>,
        entry: &mut DebuggingInformationEntry<R>,
    ) -> Result<(Self, bool), Error>
        ensures unit { IfOk result (λ read.
            unit_facts_or_bare read.1 dwarf.now.file header ≡ Ok read.0) }
        ensures refusal { IfErr result (λ e. e ≢ Memory
            → unit_facts dwarf.now.file header ≡ Err e) }
        ensures root { OnOk result ((u : UnitFacts) → unit_facts dwarf.now.file header ≡ Ok u
            → root dwarf.now.file.offset_limit u.header u.table
            ≡ Ok (entry_of R.view R.Offset.count entry.new)) }
    {
        if let Some(declarations) = dwarf.checked_declarations(alloc, &header)? {
            read_root(&header, &declarations, entry)?;
            let unit = Unit::bare_of_root(alloc, dwarf, header, entry.attrs())?;
            return Ok((unit, false));
        }
        let abbreviations = dwarf.abbreviations(alloc, header.debug_abbrev_offset())?;
        read_root(&header, &abbreviations, entry)?;
        if entry.has_attr(DW_AT_stmt_list) {
            let unit = Unit::bare_of_root(alloc, dwarf, header, entry.attrs())?;
            return Ok((unit, false));
        }
        let unit = Unit::of_root(alloc, dwarf, header, abbreviations, entry.attrs())?;
        Ok((unit, true))
    }

    // A unit whose root has these attributes.
    fn of_root(
        alloc: Global,
        dwarf: &Dwarf<R>,
        header: UnitHeader<R>,
        abbreviations: Rc<Abbreviations>,
        attrs: &[Attribute<R>],
    ) -> Result<Self, Error>
        ensures { ReturnsOrNoMemory result
            (facts_of dwarf.now.file header abbreviations.value
            (raw_attributes R.view R.Offset.count attrs.now)) }
    {
        let UnitBeforeProgram {
            mut unit,
            line,
            low_pc,
        } = Unit::before_program(dwarf, header, abbreviations, attrs)?;
        unit.read_program(alloc, dwarf, line, low_pc)?;
        Ok(unit)
    }

    // The same without its declarations and the header of its line number program.
    fn bare_of_root(
        alloc: Global,
        dwarf: &Dwarf<R>,
        header: UnitHeader<R>,
        attrs: &[Attribute<R>],
    ) -> Result<Self, Error>
        ensures { ReturnsOrNoMemory result
            (bare (facts_of dwarf.now.file header []
            (raw_attributes R.view R.Offset.count attrs.now))) }
    {
        let abbreviations = Rc::new(alloc, Abbreviations::empty(alloc)?)?;
        let UnitBeforeProgram {
            mut unit,
            line,
            low_pc,
        } = Unit::before_program(dwarf, header, abbreviations, attrs)?;
        unit.check_program(dwarf, line, low_pc)?;
        Ok(unit)
    }

    // A unit whose root has these attributes, up to its line number program and the address that it
    // begins at. The only refusal is out of memory.
    fn before_program(
        dwarf: &Dwarf<R>,
        header: UnitHeader<R>,
        abbreviations: Rc<Abbreviations>,
        attrs: &[Attribute<R>],
    ) -> Result<UnitBeforeProgram<R>, Error>
        ensures facts { ReturnsAsOrNoMemory (λ b.
            facts_with_program dwarf.now.file b.unit (option_map R.Offset.count b.line)
            (option_map (raw_value_of R.view R.Offset.count) b.low_pc)) result
            (Ok (facts_of dwarf.now.file header abbreviations.value
            (raw_attributes R.view R.Offset.count attrs.now))) }
        ensures table { IfOk result (λ b. b.unit.table ≡ abbreviations.value) }
        ensures program { IfOk result (λ b. b.unit.line_header ≡ None) }
    {
        let found = RootAttributes::read(attrs)?;
        let bases = UnitBases::new(dwarf.file_type, &header, &found);
        let RootAttributes {
            name,
            comp_dir,
            low_pc,
            dwo_id,
            line,
            ..
        } = found;
        let dwo_id = dwo_id_of(&header, dwo_id);
        let mut unit = Unit::without_texts(header, abbreviations, bases, dwo_id);
        unit.read_texts(dwarf, name, comp_dir)?;
        Ok(UnitBeforeProgram { unit, line, low_pc })
    }

    // A unit with the bases that its root names, and its identifier.
    fn without_texts(
        header: UnitHeader<R>,
        abbreviations: Rc<Abbreviations>,
        bases: UnitBases<R>,
        dwo_id: Option<DwoId>,
    ) -> Self
        requires { bases.encoding ≡ header.encoding }
        ensures { result
            ≡ facts_without_texts header abbreviations.value bases
            (option_map (λ id. id.0) dwo_id) }
    {
        Unit {
            header,
            abbreviations,
            name: None,
            comp_dir: None,
            low_pc: 0,
            str_offsets_base: bases.str_offsets,
            addr_base: bases.addr,
            loclists_base: bases.loclists,
            rnglists_base: bases.rnglists,
            line_program: None,
            dwo_id,
        }
    }

    // Takes its name and its directory. The only refusal is out of memory.
    fn read_texts(
        &mut self,
        dwarf: &Dwarf<R>,
        name: Option<AttributeValue<R>>,
        comp_dir: Option<AttributeValue<R>>,
    ) -> Result<(), Error>
        ensures { ReturnsAsOrNoMemory (λ _. self.new) result
            (Ok (facts_with_texts dwarf.now.file self.old
            (option_map (raw_value_of R.view R.Offset.count) name)
            (option_map (raw_value_of R.view R.Offset.count) comp_dir))) }
    {
        let name = self.text(dwarf, name)?;
        let comp_dir = self.text(dwarf, comp_dir)?;
        self.name = name;
        self.comp_dir = comp_dir;
        Ok(())
    }

    // The text of a value, if there is one that can be read.
    fn text(&self, dwarf: &Dwarf<R>, value: Option<AttributeValue<R>>) -> Result<Option<R>, Error>
        ensures { ReturnsAsOrNoMemory (option_map R.view) result
            (Ok (readable_text dwarf.now.file self.now.bases
            (option_map (raw_value_of R.view R.Offset.count) value))) }
    {
        match value {
            Some(value) => dwarf.text_of(self, value),
            None => Ok(None),
        }
    }

    // Takes the header of its line number program, and the address that it begins at.
    fn read_program(
        &mut self,
        alloc: Global,
        dwarf: &Dwarf<R>,
        line: Option<R::Offset>,
        low_pc: Option<AttributeValue<R>>,
    ) -> Result<(), Error>
        ensures { ReturnsAsOrNoMemory (λ _. self.new) result
            (facts_with_program dwarf.now.file self.old (option_map R.Offset.count line)
            (option_map (raw_value_of R.view R.Offset.count) low_pc)) }
    {
        let line_program = self.line_header(alloc, dwarf, line)?;
        let low_pc = self.begin(dwarf, low_pc)?;
        self.line_program = line_program;
        self.low_pc = low_pc;
        Ok(())
    }

    // Checks the header of its line number program, and takes the address that it begins at.
    fn check_program(
        &mut self,
        dwarf: &Dwarf<R>,
        line: Option<R::Offset>,
        low_pc: Option<AttributeValue<R>>,
    ) -> Result<(), Error>
        requires table { self.old.table ≡ [] }
        requires program { self.old.line_header ≡ None }
        ensures { ReturnsAsOrNoMemory (λ _. self.new) result
            (bare (facts_with_program dwarf.now.file self.old (option_map R.Offset.count line)
            (option_map (raw_value_of R.view R.Offset.count) low_pc))) }
    {
        dwarf.check_line_header(&self.header, line)?;
        let begin = self.begin(dwarf, low_pc)?;
        self.low_pc = begin;
        Ok(())
    }

    // The header of the line number program at an offset, if there is one.
    pub(crate) fn line_header(
        &self,
        alloc: Global,
        dwarf: &Dwarf<R>,
        line: Option<R::Offset>,
    ) -> Result<Option<Box<LineProgramHeader<R>>>, Error>
        ensures { ReturnsAsOrNoMemory (option_map (λ h. h.value)) result
            (line_header_of dwarf.now.file (line_unit self.now)
            (option_map R.Offset.count line)) }
    {
        dwarf.line_header(alloc, &self.header, line, &self.comp_dir, &self.name)
    }

    // The address of a value; 0 where there is none.
    fn begin(&self, dwarf: &Dwarf<R>, value: Option<AttributeValue<R>>) -> Result<u64, Error>
        ensures { ReturnsOrNoMemory result (address_or_0 dwarf.now.file self.now.bases
            (option_map (raw_value_of R.view R.Offset.count) value)) }
    {
        match value {
            Some(value) => Ok(dwarf.attr_address(self, value)?.unwrap_or(0)),
            None => Ok(0),
        }
    }

    /// The value that names the file of the unit's split part, if the root has one (DWARF 5, 3.1.2;
    /// before version 5 GNU's attribute).
    pub fn dwo_name(&self, alloc: Global) -> Result<Option<AttributeValue<R>>, Error>
        ensures { ReturnsAsOrNoMemory (option_map (raw_value_of R.view R.Offset.count)) result
            (dwo_name R.Offset.limit self.now) }
    {
        let root = self.root(alloc)?;
        let name = self.split_name();
        root.attr_value(name)
    }

    /// The unit's root: its first entry, with its attributes. Refused is one that is missing, null
    /// or can't be read.
    pub fn root(&self, alloc: Global) -> Result<DebuggingInformationEntry<R>, Error>
        ensures { ReturnsAsOrNoMemory (entry_of R.view R.Offset.count) result
            (root R.Offset.limit self.now.header self.now.table) }
    {
        root_entry(alloc, &self.header, &self.abbreviations)
    }

    // The attribute that names the file of the unit's split part.
    fn split_name(&self) -> DwAt
        ensures { result.0 ≡ dwo_name_number self.now.header.encoding }
    {
        if self.header.version() < FIRST_WITH_DWO_NAME {
            DW_AT_GNU_dwo_name
        } else {
            DW_AT_dwo_name
        }
    }

    /// Takes from the main file's unit what a split unit doesn't say: where it begins, its
    /// addresses, and below version 5 its range lists (DWARF 5, 3.1.3; before it GNU's split
    /// files).
    pub fn copy_relocated_attributes(&mut self, other: &Unit<R>)
        ensures { self.new ≡ relocated_from other.now self.old }
    {
        self.low_pc = other.low_pc;
        self.addr_base = other.addr_base;
        if self.header.version() < 5 {
            self.rnglists_base = other.rnglists_base;
        }
    }
}

// A unit without its line number program, and what its root says of that, and of where it begins.
#[derive(Drop)]
struct UnitBeforeProgram<R: Reader> {
    unit: Unit<R>,
    line: Option<R::Offset>,
    low_pc: Option<AttributeValue<R>>,
}

// The identifier that a value is.
fn named_dwo_id<R: Reader>(value: AttributeValue<R>) -> Option<DwoId>
    ensures { option_map (λ id. id.0) result
        ≡ dwo_id_of (raw_value_of R.view R.Offset.count value) }
{
    match value {
        AttributeValue::DwoId(id) => Some(id),
        _ => None,
    }
}

// The identifier that a unit shares with another file's unit: of its header, or else a value of its
// root.
fn dwo_id_of<R: Reader>(header: &UnitHeader<R>, value: Option<AttributeValue<R>>) -> Option<DwoId>
    ensures { option_map (λ id. id.0) result ≡ option_or (dwo_id_in header.now.kind)
        (option_and_then dwo_id_of (option_map (raw_value_of R.view R.Offset.count) value)) }
{
    match (header.type_(), value) {
        (UnitType::Skeleton(id) | UnitType::SplitCompilation(id), _) => Some(id),
        (_, Some(value)) => named_dwo_id(value),
        _ => None,
    }
}

// A copy of a reader, if there is one.
fn copy_of<R: Reader>(reader: &Option<R>) -> Result<Option<R>, Error>
    ensures { ReturnsAsOrNoMemory (option_map R.view) result (Ok (option_map R.view reader.now)) }
{
    match reader {
        Some(reader) => Ok(Some(reader.copy()?)),
        None => Ok(None),
    }
}

impl<R: Reader> Dwarf<R> {
    // The text of a value, if it can be read.
    fn text_of(&self, unit: &Unit<R>, value: AttributeValue<R>) -> Result<Option<R>, Error>
        ensures { ReturnsAsOrNoMemory (option_map R.view) result
            (Ok (readable_text self.now.file unit.now.bases
            (Some (raw_value_of R.view R.Offset.count value)))) }
    {
        match self.attr_string(unit, value) {
            Ok(text) => Ok(Some(text)),
            Err(Error::Memory) => Err(Error::Memory),
            Err(_) => Ok(None),
        }
    }

    // The header of the line number program at an offset, if there is one.
    fn line_header(
        &self,
        alloc: Global,
        header: &UnitHeader<R>,
        offset: Option<R::Offset>,
        comp_dir: &Option<R>,
        name: &Option<R>,
    ) -> Result<Option<Box<LineProgramHeader<R>>>, Error>
        ensures { ReturnsAsOrNoMemory (option_map (λ h. h.value)) result
            (line_header_of self.now.file
            (record {
              address_bytes = header.now.encoding.address_size;
              directory = option_map R.view comp_dir.now;
              name = option_map R.view name.now;
            })
            (option_map R.Offset.count offset)) }
    {
        match offset {
            Some(offset) => Ok(Some(self.line_header_at(alloc, header, offset, comp_dir, name)?)),
            None => Ok(None),
        }
    }

    // Checks the header of the line number program at an offset, if there is one. Takes no memory.
    fn check_line_header(
        &self,
        header: &UnitHeader<R>,
        offset: Option<R::Offset>,
    ) -> Result<(), Error>
        ensures { (directory name : Option View) → Returns result
            (refusal_of (line_header_of self.now.file
            (record {
              address_bytes = header.now.encoding.address_size;
              directory = directory;
              name = name;
            })
            (option_map R.Offset.count offset))) }
    {
        let Some(offset) = offset else {
            return Ok(());
        };
        let address_size = header.address_size();
        self.debug_line
            .check_header(DebugLineOffset(offset), address_size)
    }

    // The header of the line number program at an offset.
    fn line_header_at(
        &self,
        alloc: Global,
        header: &UnitHeader<R>,
        offset: R::Offset,
        comp_dir: &Option<R>,
        name: &Option<R>,
    ) -> Result<Box<LineProgramHeader<R>>, Error>
        ensures { ReturnsAsOrNoMemory (λ h. h.value) result
            (header_at self.now.file.offset_limit (R.Offset.count offset)
            (record {
              address_bytes = header.now.encoding.address_size;
              directory = option_map R.view comp_dir.now;
              name = option_map R.view name.now;
            })
            self.now.file.sections.debug_line) }
    {
        let address_size = header.address_size();
        let comp_dir = copy_of(comp_dir)?;
        let name = copy_of(name)?;
        let program = self.debug_line.header(
            alloc,
            DebugLineOffset(offset),
            address_size,
            comp_dir,
            name,
        )?;
        Ok(Box::new(alloc, program)?)
    }
}
