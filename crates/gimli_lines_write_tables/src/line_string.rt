//! The texts of a line number program's header.

ghost use Rattle.std.specs.Prelude.{◌≡◌, ◌≤◌, ◌<◌, Some, IfOk, OnErr, IfErr};
ghost use Rattle.gimli_lines_write_rows.specs.WriteError.TheVariants.{Memory};
ghost use Rattle.gimli_lines_write_tables.specs.StringSections.{IsText};
ghost use Rattle.gimli_lines_write_tables.specs.FileTables.{text_of};
ghost use Rattle.gimli_lines_write_tables.specs.LineStrings.{HoldsText, IsKnown, bytes_of_text, table_after};

use crate::string_tables::{LineStringId, LineStringTable, StringId, StringTable};
use gimli_lines_write_rows::{Encoding, Error};
use std::alloc::Global;

/// A text of a line number program's header: a directory, a file's path, or its source (DWARF 5,
/// 6.2.4.1).
#[derive(Debug, Drop, PartialEq, Eq, Hash)]
pub enum LineString {
    /// A text in the header, without its zero byte.
    String(Vec<u8>),
    /// A text in `.debug_str`.
    StringRef(StringId),
    /// A text in `.debug_line_str`.
    LineStringRef(LineStringId),
}

impl LineString {
    /// The text as a version has it: in the header up to version 4, else in `.debug_line_str`. It
    /// holds no zero byte.
    pub fn new(
        alloc: Global,
        bytes: &[u8],
        encoding: Encoding,
        line_strings: &mut LineStringTable,
    ) -> Result<LineString, Error>
        requires { IsText bytes.now }
        ensures text { IfOk result (HoldsText encoding.version bytes.now line_strings.old) }
        ensures table { IfOk result (λ _. line_strings.new ≡ table_after encoding.version bytes.now
            line_strings.old) }
        ensures err { OnErr result (line_strings.new ≡ line_strings.old) }
        ensures refusal { IfErr result (λ e. e ≡ Memory) }
    {
        if encoding.version <= 4 {
            Ok(LineString::String(Vec::from_slice(alloc, bytes)?))
        } else {
            Ok(LineString::LineStringRef(line_strings.add(alloc, bytes)?))
        }
    }

    /// The bytes of the text, from the tables that its ids are of.
    pub fn get<'a>(
        &'a self,
        strings: &'a StringTable,
        line_strings: &'a LineStringTable,
    ) -> &'a [u8]
        requires { IsKnown strings.now line_strings.now (text_of self.now) }
        ensures { bytes_of_text strings.now line_strings.now (text_of self.now)
            ≡ Some result.now }
    {
        match self {
            LineString::String(bytes) => bytes.as_slice(),
            LineString::StringRef(id) => strings.get(*id),
            LineString::LineStringRef(id) => line_strings.get(*id),
        }
    }
}
