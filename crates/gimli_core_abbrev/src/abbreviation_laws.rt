//! What holds of every table: each function here has an empty body, and its contract is a law.

ghost use Rattle.gimli_core_abbrev.specs.TableLaws.{NoCode0, CodesOccurOnce, NeedsRoom, FindsInByteOrder, AnswersStay, EndsAsCode0};

/// The code 0 is in no table (DWARF 5, 7.5.3).
pub fn no_code_0()
    ensures { NoCode0 }
{}

/// Each code of a table occurs in it once (DWARF 5, 7.5.3).
pub fn codes_occur_once()
    ensures { CodesOccurOnce }
{}

/// Five times the declarations of a table and twice their attributes are no more than the bytes
/// from its offset on.
pub fn needs_room()
    ensures { NeedsRoom }
{}

/// What a code finds in a table is what it finds among the declarations in the order of
/// the bytes.
pub fn finds_in_byte_order()
    ensures { FindsInByteOrder }
{}

/// Bytes after a section change no answer but those that depend on its end: the refusal of a read
/// that met the end, and a table that the end closed in place of a code 0 (DWARF 5, 7.5.3).
pub fn answers_stay()
    ensures { AnswersStay }
{}

/// A table that the end of its section closes is the one that a code 0 after it closes.
pub fn ends_as_code_0()
    ensures { EndsAsCode0 }
{}
