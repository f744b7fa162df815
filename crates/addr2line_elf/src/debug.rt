//! The sections of debugging information of an ELF file.

ghost use Rattle.std.specs.Prelude.{◌≡◌};
ghost use Rattle.addr2line_elf.specs.ImageLoading.{LoadsOrNoMemory};
ghost use Rattle.addr2line_elf.specs.ElfDebugSections.{is_read, is_read_split, main_section, split_section};

use crate::elf::Elf;
use crate::error::LoadError;
use gimli_core_readers::{EndianBytes, RunTimeEndian, SectionId};

/// The sections of a main file that lookups read.
pub const READ: [SectionId; 10] = [
    SectionId::DebugAbbrev,
    SectionId::DebugAddr,
    SectionId::DebugAranges,
    SectionId::DebugInfo,
    SectionId::DebugLine,
    SectionId::DebugLineStr,
    SectionId::DebugRanges,
    SectionId::DebugRngLists,
    SectionId::DebugStr,
    SectionId::DebugStrOffsets,
];

impl Elf {
    /// A section of a main file: its bytes if lookups read it, else none.
    pub fn debug_section(&self, id: SectionId) -> Result<EndianBytes<RunTimeEndian>, LoadError>
        ensures { LoadsOrNoMemory result (main_section id self.now) }
    {
        if is_read(id) {
            self.section(id.name())
        } else {
            Ok(self.no_section())
        }
    }

    /// A section of a split file (DWARF 5, 7.3.2): its bytes if lookups read it, else none.
    pub fn dwo_section(&self, id: SectionId) -> Result<EndianBytes<RunTimeEndian>, LoadError>
        ensures { LoadsOrNoMemory result (split_section id self.now) }
    {
        if !is_read_split(id) {
            return Ok(self.no_section());
        }
        match id.dwo_name() {
            Some(name) => self.section(name),
            None => Ok(self.no_section()),
        }
    }
}

// Whether lookups read this section of a main file.
fn is_read(id: SectionId) -> bool
    ensures { result ≡ is_read id }
{
    matches!(
        id,
        SectionId::DebugAbbrev
            | SectionId::DebugAddr
            | SectionId::DebugAranges
            | SectionId::DebugInfo
            | SectionId::DebugLine
            | SectionId::DebugLineStr
            | SectionId::DebugRanges
            | SectionId::DebugRngLists
            | SectionId::DebugStr
            | SectionId::DebugStrOffsets
    )
}

// Whether lookups read this section of a split file.
fn is_read_split(id: SectionId) -> bool
    ensures { result ≡ is_read_split id }
{
    matches!(
        id,
        SectionId::DebugAbbrev
            | SectionId::DebugInfo
            | SectionId::DebugLine
            | SectionId::DebugRngLists
            | SectionId::DebugStr
            | SectionId::DebugStrOffsets
    )
}
