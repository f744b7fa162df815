//! The standard's numbers (System V ABI): each function here does nothing; its contract is a law,
//! which a definition states that can be read beside the standard.

ghost use Rattle.linemap_elf.specs.WrittenNumbers.{HeaderNumbers, SectionNumbers};

/// The numbers of a file's header.
pub fn header_numbers()
    ensures { HeaderNumbers }
{}

/// The numbers of sections.
pub fn section_numbers()
    ensures { SectionNumbers }
{}
