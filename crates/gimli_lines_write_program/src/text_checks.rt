//! Texts whose tables have them.

ghost use Rattle.std.specs.Prelude.{◌≡◌, map};
ghost use Rattle.std.specs.List.{list_all};
ghost use Rattle.gimli_lines_write_laws.specs.FileTables.{File, Info, text_of, file_of, info_of};
ghost use Rattle.gimli_lines_write_program.specs.TextTests.{is_known, is_source_known};

use gimli_lines_write_laws::{FileInfo, FileKey, LineString, LineStringTable, StringTable};

// Whether its table has a text.
fn is_known(strings: &StringTable, line_strings: &LineStringTable, text: &LineString) -> bool
    ensures { result ≡ is_known strings.now line_strings.now (text_of text.now) }
{
    match text {
        LineString::String(_) => true,
        LineString::StringRef(id) => id.0 < strings.count(),
        LineString::LineStringRef(id) => id.0 < line_strings.count(),
    }
}

/// Whether their tables have texts.
pub fn are_known(
    strings: &StringTable,
    line_strings: &LineStringTable,
    texts: &[LineString],
) -> bool
    ensures { result ≡ list_all (is_known strings.now line_strings.now) (map text_of texts.now) }
{
    texts
        .iter()
        .all(|text| is_known(strings, line_strings, text))
}

/// Whether their tables have the paths of files.
pub fn are_paths_known(
    strings: &StringTable,
    line_strings: &LineStringTable,
    files: &[FileKey],
) -> bool
    ensures { result ≡ list_all (λ (f : File). is_known strings.now line_strings.now f.path)
        (map file_of files.now) }
{
    files
        .iter()
        .all(|file| is_known(strings, line_strings, &file.path))
}

// Whether its table has the text of a file, where it has one.
fn is_source_known(strings: &StringTable, line_strings: &LineStringTable, info: &FileInfo) -> bool
    ensures { result ≡ is_source_known strings.now line_strings.now (info_of info.now).source }
{
    match &info.source {
        Some(source) => is_known(strings, line_strings, source),
        None => true,
    }
}

/// Whether their tables have the texts of files.
pub fn are_sources_known(
    strings: &StringTable,
    line_strings: &LineStringTable,
    infos: &[FileInfo],
) -> bool
    ensures { result ≡ list_all (λ (i : Info). is_source_known strings.now line_strings.now
        i.source) (map info_of infos.now) }
{
    infos
        .iter()
        .all(|info| is_source_known(strings, line_strings, info))
}
