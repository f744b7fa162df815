//! The standard's numbers: each function here has an empty body, and its contract is a law, which
//! a definition states that can be read beside the standard.

ghost use Rattle.gimli_core_base.specs.StandardNumbers.{InitialLengthNumbers, UnitTypeNumbers, TagNumbers, ChildrenNumbers, AttributeNumbers, FormNumbers, LocationListEntryNumbers, LanguageNumbers, StandardOpcodeNumbers, ExtendedOpcodeNumbers, ContentTypeNumbers, RangeListEntryNumbers};

/// The initial lengths that stand for something else than a length have the numbers of the standard
/// (DWARF 5, 7.2.2 and 7.4).
pub fn initial_length_numbers()
    ensures { InitialLengthNumbers }
{}

/// The types of units (DWARF 5, 7.5.1).
pub fn unit_type_numbers()
    ensures { UnitTypeNumbers }
{}

/// The tags of entries (DWARF 5, 7.5.3).
pub fn tag_numbers()
    ensures { TagNumbers }
{}

/// Whether entries have children (DWARF 5, 7.5.3).
pub fn children_numbers()
    ensures { ChildrenNumbers }
{}

/// The names of attributes (DWARF 5, 7.5.4).
pub fn attribute_numbers()
    ensures { AttributeNumbers }
{}

/// The forms of attribute values (DWARF 5, 7.5.6).
pub fn form_numbers()
    ensures { FormNumbers }
{}

/// The kinds of location list entries (DWARF 5, 7.7.3).
pub fn location_list_entry_numbers()
    ensures { LocationListEntryNumbers }
{}

/// The source languages (DWARF 5, 7.12).
pub fn language_numbers()
    ensures { LanguageNumbers }
{}

/// The standard opcodes of line number programs (DWARF 5, 7.22).
pub fn standard_opcode_numbers()
    ensures { StandardOpcodeNumbers }
{}

/// The extended opcodes of line number programs (DWARF 5, 7.22).
pub fn extended_opcode_numbers()
    ensures { ExtendedOpcodeNumbers }
{}

/// The content types of line number programs (DWARF 5, 7.22).
pub fn content_type_numbers()
    ensures { ContentTypeNumbers }
{}

/// The kinds of range list entries (DWARF 5, 7.25).
pub fn range_list_entry_numbers()
    ensures { RangeListEntryNumbers }
{}
