ghost use Rattle.std.specs.Prelude.{◌≡◌, option_map};
ghost use Rattle.gimli_core_base.specs.FormatSizes.{initial_length_size, word_size};
ghost use Rattle.gimli_core_base.specs.SectionNames.{name_of, dwo_name_of};

/// Whether offsets and lengths have four or eight bytes (DWARF 5, 7.4).
#[derive(Clone, Copy, Debug, PartialEq, Eq, Hash)]
pub enum Format {
    Dwarf64,
    Dwarf32,
}

impl Format {
    /// The bytes of an initial length: four, or an escape of four and eight more.
    pub fn initial_length_size(self) -> u8
        ensures { result ≡ initial_length_size self }
    {
        match self {
            Format::Dwarf32 => 4,
            Format::Dwarf64 => 12,
        }
    }

    /// The bytes of an offset or a length.
    pub fn word_size(self) -> u8
        ensures { result ≡ word_size self }
    {
        match self {
            Format::Dwarf32 => 4,
            Format::Dwarf64 => 8,
        }
    }
}

/// What the sizes of a unit's or a table's fields depend on.
#[derive(Clone, Copy, Debug, PartialEq, Eq, Hash)]
pub struct Encoding {
    /// The bytes of an address.
    pub address_size: u8,
    pub format: Format,
    /// The version of the standard, which each section counts for itself.
    pub version: u16,
}

/// The parameters of the special opcodes of a line number program (DWARF 5, 6.2.4).
#[derive(Clone, Copy, Debug, PartialEq, Eq, Hash)]
pub struct LineEncoding {
    /// The bytes of the target's shortest instruction.
    pub minimum_instruction_length: u8,
    /// The operations of an instruction: 1, except where instructions are very long words.
    pub maximum_operations_per_instruction: u8,
    /// The first value of the register `is_stmt`.
    pub default_is_stmt: bool,
    /// The least amount by which a special opcode moves the line.
    pub line_base: i8,
    /// How many amounts there are by which a special opcode may move the line.
    pub line_range: u8,
}

impl Default for LineEncoding {
    ghost use Rattle.gimli_core_base.specs.LineDefaults.{default_line_encoding};

    ghost is_default = { λ e. e ≡ default_line_encoding };

    fn default() -> Self {
        LineEncoding {
            minimum_instruction_length: 1,
            maximum_operations_per_instruction: 1,
            default_is_stmt: true,
            line_base: -5,
            line_range: 14,
        }
    }
}

/// Whether a file holds whole units or the split ones that a skeleton points to (DWARF 5, 7.3.2).
#[derive(Clone, Copy, Debug, PartialEq, Eq, Hash)]
pub enum DwarfFileType {
    Main,
    Dwo,
}

impl Default for DwarfFileType {
    ghost use Rattle.gimli_core_base.specs.declared.common.DwarfFileType.TheVariants.{Main};

    ghost is_default = { λ t. t ≡ Main };

    fn default() -> Self {
        DwarfFileType::Main
    }
}

/// The number that a skeleton unit and its split unit have in common (DWARF 5, 7.5.1.2).
#[derive(Clone, Copy, Debug, PartialEq, Eq, PartialOrd, Ord, Hash)]
pub struct DwoId(pub u64);

/// The signature of a type unit (DWARF 5, 7.5.1.3).
#[derive(Clone, Copy, Debug, PartialEq, Eq, PartialOrd, Ord, Hash)]
pub struct DebugTypeSignature(pub u64);

/// A section of debugging information.
#[derive(Clone, Copy, Debug, PartialEq, Eq, PartialOrd, Ord, Hash)]
pub enum SectionId {
    DebugAbbrev,
    DebugAddr,
    DebugAranges,
    DebugInfo,
    DebugLine,
    DebugLineStr,
    DebugLoc,
    DebugLocLists,
    DebugMacinfo,
    DebugMacro,
    DebugNames,
    DebugRanges,
    DebugRngLists,
    DebugStr,
    DebugStrOffsets,
    DebugTypes,
}

impl SectionId {
    /// The section's name in an ELF file.
    pub fn name(self) -> &'static str
        ensures { result.now ≡ name_of self }
    {
        match self {
            SectionId::DebugAbbrev => ".debug_abbrev",
            SectionId::DebugAddr => ".debug_addr",
            SectionId::DebugAranges => ".debug_aranges",
            SectionId::DebugInfo => ".debug_info",
            SectionId::DebugLine => ".debug_line",
            SectionId::DebugLineStr => ".debug_line_str",
            SectionId::DebugLoc => ".debug_loc",
            SectionId::DebugLocLists => ".debug_loclists",
            SectionId::DebugMacinfo => ".debug_macinfo",
            SectionId::DebugMacro => ".debug_macro",
            SectionId::DebugNames => ".debug_names",
            SectionId::DebugRanges => ".debug_ranges",
            SectionId::DebugRngLists => ".debug_rnglists",
            SectionId::DebugStr => ".debug_str",
            SectionId::DebugStrOffsets => ".debug_str_offsets",
            SectionId::DebugTypes => ".debug_types",
        }
    }

    /// The section's name in a split file, for those that a split file may have (DWARF 5, 7.3.2 and
    /// appendix F; up to version 4 also location lists, macro information and types).
    pub fn dwo_name(self) -> Option<&'static str>
        ensures { option_map (λ name. name.now) result ≡ dwo_name_of self }
    {
        match self {
            SectionId::DebugAbbrev => Some(".debug_abbrev.dwo"),
            SectionId::DebugInfo => Some(".debug_info.dwo"),
            SectionId::DebugLine => Some(".debug_line.dwo"),
            SectionId::DebugLoc => Some(".debug_loc.dwo"),
            SectionId::DebugLocLists => Some(".debug_loclists.dwo"),
            SectionId::DebugMacinfo => Some(".debug_macinfo.dwo"),
            SectionId::DebugMacro => Some(".debug_macro.dwo"),
            SectionId::DebugRngLists => Some(".debug_rnglists.dwo"),
            SectionId::DebugStr => Some(".debug_str.dwo"),
            SectionId::DebugStrOffsets => Some(".debug_str_offsets.dwo"),
            SectionId::DebugTypes => Some(".debug_types.dwo"),
            _ => None,
        }
    }
}

/// An offset into `.debug_abbrev`.
#[derive(Clone, Copy, Debug, PartialEq, Eq, PartialOrd, Ord, Hash)]
pub struct DebugAbbrevOffset<T = usize>(pub T);

/// An offset into `.debug_addr`.
#[derive(Clone, Copy, Debug, PartialEq, Eq, PartialOrd, Ord, Hash)]
pub struct DebugAddrOffset<T = usize>(pub T);

/// The offset in `.debug_addr` of the first address of a unit.
#[derive(Clone, Copy, Debug, PartialEq, Eq, PartialOrd, Ord, Hash)]
pub struct DebugAddrBase<T = usize>(pub T);

/// The place of an address among those of its unit.
#[derive(Clone, Copy, Debug, PartialEq, Eq, PartialOrd, Ord, Hash)]
pub struct DebugAddrIndex<T = usize>(pub T);

/// An offset into `.debug_aranges`.
#[derive(Clone, Copy, Debug, PartialEq, Eq, PartialOrd, Ord, Hash)]
pub struct DebugArangesOffset<T = usize>(pub T);

/// An offset into `.debug_line`.
#[derive(Clone, Copy, Debug, PartialEq, Eq, PartialOrd, Ord, Hash)]
pub struct DebugLineOffset<T = usize>(pub T);

/// An offset into `.debug_line_str`.
#[derive(Clone, Copy, Debug, PartialEq, Eq, PartialOrd, Ord, Hash)]
pub struct DebugLineStrOffset<T = usize>(pub T);

/// An offset into `.debug_loc` or, from version 5 on, `.debug_loclists`.
#[derive(Clone, Copy, Debug, PartialEq, Eq, PartialOrd, Ord, Hash)]
pub struct LocationListsOffset<T = usize>(pub T);

/// The offset in `.debug_loclists` of the first of a unit's offsets of lists.
#[derive(Clone, Copy, Debug, PartialEq, Eq, PartialOrd, Ord, Hash)]
pub struct DebugLocListsBase<T = usize>(pub T);

/// The place of an offset among those of its unit's location lists.
#[derive(Clone, Copy, Debug, PartialEq, Eq, PartialOrd, Ord, Hash)]
pub struct DebugLocListsIndex<T = usize>(pub T);

/// An offset into `.debug_ranges` or `.debug_rnglists` as an attribute gives it: in a split file of
/// version 4 or below it counts from the unit's base.
#[derive(Clone, Copy, Debug, PartialEq, Eq, PartialOrd, Ord, Hash)]
pub struct RawRangeListsOffset<T = usize>(pub T);

/// An offset into `.debug_ranges` or, from version 5 on, `.debug_rnglists`.
#[derive(Clone, Copy, Debug, PartialEq, Eq, PartialOrd, Ord, Hash)]
pub struct RangeListsOffset<T = usize>(pub T);

/// The offset in `.debug_rnglists` of the first of a unit's offsets of lists.
#[derive(Clone, Copy, Debug, PartialEq, Eq, PartialOrd, Ord, Hash)]
pub struct DebugRngListsBase<T = usize>(pub T);

/// The place of an offset among those of its unit's range lists.
#[derive(Clone, Copy, Debug, PartialEq, Eq, PartialOrd, Ord, Hash)]
pub struct DebugRngListsIndex<T = usize>(pub T);

/// An offset into `.debug_str`.
#[derive(Clone, Copy, Debug, PartialEq, Eq, PartialOrd, Ord, Hash)]
pub struct DebugStrOffset<T = usize>(pub T);

/// The offset in `.debug_str_offsets` of the first of a unit's offsets of strings.
#[derive(Clone, Copy, Debug, PartialEq, Eq, PartialOrd, Ord, Hash)]
pub struct DebugStrOffsetsBase<T = usize>(pub T);

/// The place of an offset among those of its unit's strings.
#[derive(Clone, Copy, Debug, PartialEq, Eq, PartialOrd, Ord, Hash)]
pub struct DebugStrOffsetsIndex<T = usize>(pub T);
