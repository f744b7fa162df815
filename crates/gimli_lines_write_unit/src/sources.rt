//! The texts of files.

ghost use Rattle.std.specs.Prelude.{◌≡◌, ◌<◌, [], map, option_map, is_none, OnOk, OnErr, IfOk, IfErr};
ghost use Rattle.std.specs.List.{list_any};
ghost use Rattle.gimli_lines_write_tables.specs.WriteError.TheVariants.{Memory};
ghost use Rattle.gimli_lines_write_tables.specs.FileTables.{Info, text_of, info_of};
ghost use Rattle.gimli_lines_write_unit.specs.HeaderContents.{first_source, empty_form, empty_form_of, strings_after, line_strings_after, empty_text};

use crate::details::FileDetails;
use gimli_lines_write_tables::{
    Error, FileInfo, FileTable, LineString, LineStringTable, StringTable,
};
use std::alloc::Global;

// Whether a file has no text.
fn lacks_source(infos: &[FileInfo]) -> bool
    ensures { result ≡ list_any (λ (i : Info). is_none i.source) (map info_of infos.now) }
{
    for info in infos {
        if info.source.is_none() {
            return true;
        }
    }
    false
}

/// The first text of a file.
pub fn first_source(infos: &[FileInfo]) -> Option<&LineString>
    ensures { option_map (λ t. text_of t.now) result ≡ first_source (map info_of infos.now) }
{
    for info in infos {
        if let Some(source) = &info.source {
            return Some(source);
        }
    }
    None
}

// The text in whose form the empty text is needed.
fn empty_form(version: u16, details: FileDetails, infos: &[FileInfo]) -> Option<&LineString>
    ensures { option_map (λ t. text_of t.now) result
        ≡ empty_form version details (map info_of infos.now) }
{
    if version > 4 && details.has_source && lacks_source(infos) {
        return first_source(infos);
    }
    None
}

/// The text that is written where a file has none. Where it is by reference its table gains it;
/// refused, no table gains it.
pub fn empty_text(
    alloc: Global,
    tables: &FileTable,
    version: u16,
    details: FileDetails,
    strings: &mut StringTable,
    line_strings: &mut LineStringTable,
) -> Result<LineString, Error>
    requires { tables.now.version ≡ version }
    ensures text { IfOk result (λ t. text_of t ≡ empty_text strings.old line_strings.old
        (empty_form_of tables.now details)) }
    ensures strings { OnOk result (strings.new ≡ strings_after (empty_form_of tables.now details)
        strings.old) }
    ensures line_strings { OnOk result (line_strings.new
        ≡ line_strings_after (empty_form_of tables.now details) line_strings.old) }
    ensures strings_at_refusal { OnErr result (strings.new ≡ strings.old) }
    ensures line_strings_at_refusal { OnErr result (line_strings.new ≡ line_strings.old) }
    ensures refusal { IfErr result (λ e. e ≡ Memory) }
{
    match empty_form(version, details, tables.infos()) {
        Some(LineString::StringRef(_)) => Ok(LineString::StringRef(strings.add(alloc, &[])?)),
        Some(LineString::LineStringRef(_)) => {
            Ok(LineString::LineStringRef(line_strings.add(alloc, &[])?))
        }
        _ => Ok(LineString::String(Vec::new(alloc))),
    }
}
