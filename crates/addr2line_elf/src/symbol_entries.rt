//! Entries of a symbol table (System V ABI, "Symbol Table").

ghost use Rattle.gimli_core_readers.specs.Calls.{ReturnsAs};
ghost use Rattle.addr2line_elf.specs.SymbolEntries.{symbol_entry, entry_of_32, entry_of_64};

use crate::class::Class;
use gimli_core_readers::{EndianSlice, Error, Reader, RunTimeEndian};

/// A symbol as its table describes it.
#[derive(Clone, Copy, Debug, PartialEq, Eq)]
pub struct SymbolEntry {
    /// Where the symbol's name begins in the section of names.
    pub name: u32,
    /// The symbol's type, in the low four bits, and its binding (STB_*), in the high four.
    pub info: u8,
    /// The index of the section that defines it; 0 where none here does.
    pub section: u16,
    /// The address of the symbol.
    pub value: u64,
    /// Its size in bytes; 0 where that isn't known.
    pub size: u64,
}

impl SymbolEntry {
    // The next entry.
    pub(crate) fn parse(
        input: &mut EndianSlice<'_, RunTimeEndian>,
        class: Class,
    ) -> Result<SymbolEntry, Error>
        ensures { ReturnsAs (λ entry. (entry, input.new)) result (symbol_entry class input.old) }
    {
        match class {
            Class::Elf32 => SymbolEntry::parse_32(input),
            Class::Elf64 => SymbolEntry::parse_64(input),
        }
    }

    #[tactic(auto, unfolding(crate::specs::SymbolEntries::entry_of_32))]
    fn parse_32(input: &mut EndianSlice<'_, RunTimeEndian>) -> Result<SymbolEntry, Error>
        ensures { ReturnsAs (λ entry. (entry, input.new)) result (entry_of_32 input.old) }
    {
        let name = input.read_u32()?;
        let value = u64::from(input.read_u32()?);
        let size = u64::from(input.read_u32()?);
        let info = input.read_u8()?;
        input.skip(1)?;
        let section = input.read_u16()?;
        Ok(SymbolEntry {
            name,
            info,
            section,
            value,
            size,
        })
    }

    #[tactic(auto, unfolding(crate::specs::SymbolEntries::entry_of_64))]
    fn parse_64(input: &mut EndianSlice<'_, RunTimeEndian>) -> Result<SymbolEntry, Error>
        ensures { ReturnsAs (λ entry. (entry, input.new)) result (entry_of_64 input.old) }
    {
        let name = input.read_u32()?;
        let info = input.read_u8()?;
        input.skip(1)?;
        let section = input.read_u16()?;
        let value = input.read_u64()?;
        let size = input.read_u64()?;
        Ok(SymbolEntry {
            name,
            info,
            section,
            value,
            size,
        })
    }
}
