//! The standard's numbers (System V ABI): each function here does nothing; its contract is a law,
//! which a definition states that can be read beside the standard.

ghost use Rattle.addr2line_elf.specs.StandardNumbers.{IdentificationNumbers, FileTypeNumbers, SpecialSectionNumbers, SectionTypeNumbers, SectionFlagNumbers, SymbolTypeNumbers};

/// Where a file's identification has its class and its order of bytes, and their values.
pub fn identification_numbers()
    ensures { IdentificationNumbers }
{}

/// The types of files.
pub fn file_type_numbers()
    ensures { FileTypeNumbers }
{}

/// The indices of sections that are not places in the table.
pub fn special_section_numbers()
    ensures { SpecialSectionNumbers }
{}

/// The types of sections.
pub fn section_type_numbers()
    ensures { SectionTypeNumbers }
{}

/// The flags of sections.
pub fn section_flag_numbers()
    ensures { SectionFlagNumbers }
{}

/// The types of symbols.
pub fn symbol_type_numbers()
    ensures { SymbolTypeNumbers }
{}
