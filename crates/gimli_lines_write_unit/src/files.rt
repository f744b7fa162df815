//! The files of a header.

ghost use Rattle.std.specs.Prelude.{◌≡◌, ◌<◌, [], true, false, Ok, if◌then◌else◌, unwrap_or};
ghost use Rattle.gimli_lines_write_tables.specs.EntryBytes.{Continues};
ghost use Rattle.gimli_lines_write_tables.specs.FileTables.{in_header, text_of, file_of, info_of};
ghost use Rattle.gimli_lines_write_unit.specs.HeaderContents.{source_text, header_file, details_of};
ghost use Rattle.gimli_lines_write_tables.specs.LineStrings.{IsKnown};
ghost use Rattle.gimli_lines_write_spec.specs.HeaderTexts.{spelled_text};
ghost use Rattle.gimli_lines_write_spec.specs.EntryFields.{spelled_file};
ghost use Rattle.gimli_lines_write_unit.specs.HeaderBytes.{bytes_or_refusal, text_refusals, file_refusals, details_bytes};

use crate::details::FileDetails;
use crate::pieces::{write_bytes_if, write_number_if};
use crate::texts::write_text;
use gimli_lines_write_tables::{
    DwForm, Encoding, Error, FileInfo, FileKey, LineString, LineStringTable, StringTable, Writer,
};

// Writes what follows the path of a file, its text apart.
fn write_details<W: Writer>(
    w: &mut W,
    details: FileDetails,
    file: &FileKey,
    info: &FileInfo,
) -> Result<(), Error>
    ensures { Continues result (W.contents w.old) (W.contents w.new)
        (Ok (details_bytes (details_of details)
        (header_file [] [] false (in_header []) (file_of file.now) (info_of info.now)))) }
{
    w.write_uleb128(file.directory.0 as u64)?;
    write_number_if(w, details.has_timestamp, info.timestamp)?;
    write_number_if(w, details.has_size, info.size)?;
    write_bytes_if(w, details.has_md5, &info.md5)
}

/// The text of a file, or another where it has none.
pub fn source_or<'a>(info: &'a FileInfo, empty: &'a LineString) -> &'a LineString
    ensures { text_of result.now ≡ unwrap_or (info_of info.now).source (text_of empty.now) }
{
    match &info.source {
        Some(source) => source,
        None => empty,
    }
}

// Writes the text of a file, or another where it has none, where texts are recorded.
fn write_source<W: Writer>(
    w: &mut W,
    encoding: Encoding,
    present: bool,
    form: DwForm,
    strings: &StringTable,
    line_strings: &LineStringTable,
    info: &FileInfo,
    empty: &LineString,
) -> Result<(), Error>
    requires { present ≡ true → IsKnown strings.now line_strings.now
        (unwrap_or (info_of info.now).source (text_of empty.now)) }
    ensures { let t = source_text strings.now line_strings.now present (text_of empty.now)
        (info_of info.now).source in
        Continues result (W.contents w.old) (W.contents w.new)
        (bytes_or_refusal (if present then text_refusals encoding form.0 t else [])
        (if present then spelled_text (W.contents w.old).is_big encoding.format t else [])) }
{
    if present {
        return write_text(
            w,
            encoding,
            form,
            strings,
            line_strings,
            source_or(info, empty),
        );
    }
    Ok(())
}

/// The forms of the paths and of the texts of files.
#[derive(Clone, Copy, Debug, PartialEq, Eq)]
pub struct FileForms {
    pub path: DwForm,
    pub source: DwForm,
}

/// Writes a file in lists of these forms, with another text where it has none.
pub fn write_file<W: Writer>(
    w: &mut W,
    encoding: Encoding,
    details: FileDetails,
    forms: FileForms,
    strings: &StringTable,
    line_strings: &LineStringTable,
    file: &FileKey,
    info: &FileInfo,
    empty: &LineString,
) -> Result<(), Error>
    requires path { IsKnown strings.now line_strings.now (text_of file.now.path) }
    requires source { details.has_source ≡ true
        → IsKnown strings.now line_strings.now
        (unwrap_or (info_of info.now).source (text_of empty.now)) }
    ensures { let f = header_file strings.now line_strings.now details.has_source
        (text_of empty.now) (file_of file.now) (info_of info.now) in
        Continues result (W.contents w.old) (W.contents w.new)
        (bytes_or_refusal
        (file_refusals encoding details.has_source forms.path.0 forms.source.0 f)
        (spelled_file (W.contents w.old).is_big encoding.format (details_of details) f)) }
{
    write_text(w, encoding, forms.path, strings, line_strings, &file.path)?;
    write_details(w, details, file, info)?;
    write_source(
        w,
        encoding,
        details.has_source,
        forms.source,
        strings,
        line_strings,
        info,
        empty,
    )
}
