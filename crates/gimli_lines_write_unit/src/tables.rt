//! The tables of a header: its directories and files.

ghost use Rattle.std.specs.Prelude.{◌≡◌, ℕ, List, ◌<◌, All, true, Ok, flat_map, map, length, unwrap_or};
ghost use Rattle.gimli_lines_write_tables.specs.EntryBytes.{Continues};
ghost use Rattle.gimli_lines_write_tables.specs.FileTables.{text_of, file_of, info_of};
ghost use Rattle.gimli_lines_write_spec.specs.HeaderTexts.{form_in};
ghost use Rattle.gimli_lines_write_spec.specs.EntryFields.{WrittenFile, spelled_file};
ghost use Rattle.gimli_lines_write_spec.specs.HeaderSpelling.{spelled_directories, spelled_directories_of_5};
ghost use Rattle.gimli_lines_write_unit.specs.HeaderContents.{header_text, header_files, details_of};
ghost use Rattle.gimli_lines_write_tables.specs.LineStrings.{IsKnown};
ghost use Rattle.gimli_lines_write_unit.specs.HeaderBytes.{bytes_or_refusal, all_or_refusal, text_refusals, file_refusals, directories_refusals};

use crate::details::FileDetails;
use crate::files::{FileForms, source_or, write_file};
use crate::pieces::write_formats;
use crate::texts::{form_of, write_texts};
use gimli_lines_write_spec::FileEntryFormat;
use gimli_lines_write_tables::{
    DW_FORM_string, DW_LNCT_path, DwForm, Encoding, Error, FileInfo, FileKey, LineString,
    LineStringTable, StringTable, Writer,
};

/// Writes files in lists of these forms, one after the other, with another text where one has none.
pub fn write_files<W: Writer>(
    w: &mut W,
    encoding: Encoding,
    details: FileDetails,
    forms: FileForms,
    strings: &StringTable,
    line_strings: &LineStringTable,
    files: &[FileKey],
    infos: &[FileInfo],
    empty: &LineString,
) -> Result<(), Error>
    requires same_length { length infos.now ≡ length files.now }
    requires paths { All (λ f. IsKnown strings.now line_strings.now (text_of f.path)) files.now }
    requires sources { details.has_source ≡ true
        → All (λ i. IsKnown strings.now line_strings.now
        (unwrap_or (info_of i).source (text_of empty.now))) infos.now }
    ensures { Continues result (W.contents w.old) (W.contents w.new)
        (all_or_refusal
        (file_refusals encoding details.has_source forms.path.0 forms.source.0)
        (spelled_file (W.contents w.old).is_big encoding.format (details_of details))
        (header_files strings.now line_strings.now details.has_source (text_of empty.now)
        (map file_of files.now) (map info_of infos.now))) }
{
    for place in 0..files.len() {
        write_file(
            w,
            encoding,
            details,
            forms,
            strings,
            line_strings,
            &files[place],
            &infos[place],
            empty,
        )?;
    }
    Ok(())
}

// The form of the texts of a list: that of the first.
fn first_form(texts: &[LineString]) -> DwForm
    ensures { (strings line_strings : List (List ℕ)) → result.0
        ≡ form_in (map (λ t. header_text strings line_strings (text_of t)) texts.now) }
{
    match texts.first() {
        Some(text) => form_of(text),
        None => DW_FORM_string,
    }
}

// Writes directories in version 5: their format, how many there are, and the directories.
fn write_directories_of_5<W: Writer>(
    w: &mut W,
    encoding: Encoding,
    strings: &StringTable,
    line_strings: &LineStringTable,
    directories: &[LineString],
) -> Result<(), Error>
    requires { All (λ t. IsKnown strings.now line_strings.now (text_of t)) directories.now }
    ensures { let ds = map (λ t. header_text strings.now line_strings.now (text_of t))
        directories.now in
        Continues result (W.contents w.old) (W.contents w.new)
        (bytes_or_refusal (flat_map (text_refusals encoding (form_in ds)) ds)
        (spelled_directories_of_5 (W.contents w.old).is_big encoding.format ds)) }
{
    let form = first_form(directories);
    write_formats(
        w,
        &[FileEntryFormat {
            content_type: DW_LNCT_path,
            form,
        }],
    )?;
    w.write_uleb128(directories.len() as u64)?;
    write_texts(w, encoding, form, strings, line_strings, directories)
}

/// Writes the directories of a header.
pub fn write_directories<W: Writer>(
    w: &mut W,
    encoding: Encoding,
    strings: &StringTable,
    line_strings: &LineStringTable,
    directories: &[LineString],
) -> Result<(), Error>
    requires { All (λ t. IsKnown strings.now line_strings.now (text_of t)) directories.now }
    ensures { let ds = map (λ t. header_text strings.now line_strings.now (text_of t))
        directories.now in
        Continues result (W.contents w.old) (W.contents w.new)
        (bytes_or_refusal (directories_refusals encoding ds)
        (spelled_directories encoding (W.contents w.old).is_big ds)) }
{
    if encoding.version <= 4 {
        write_texts(
            w,
            encoding,
            DW_FORM_string,
            strings,
            line_strings,
            directories,
        )?;
        return w.write_u8(0);
    }
    write_directories_of_5(w, encoding, strings, line_strings, directories)
}

/// The forms of the paths and of the texts of files: those of the first file.
pub fn first_forms(
    present: bool,
    files: &[FileKey],
    infos: &[FileInfo],
    empty: &LineString,
) -> FileForms
    requires { length infos.now ≡ length files.now }
    ensures path { (strings line_strings : List (List ℕ)) → result.path.0
        ≡ form_in (map (λ (f : WrittenFile). f.path) (header_files strings line_strings present
        (text_of empty.now) (map file_of files.now) (map info_of infos.now))) }
    ensures source { (strings line_strings : List (List ℕ)) → result.source.0
        ≡ form_in (map (λ (f : WrittenFile). f.source) (header_files strings line_strings present
        (text_of empty.now) (map file_of files.now) (map info_of infos.now))) }
{
    FileForms {
        path: match files.first() {
            Some(file) => form_of(&file.path),
            None => DW_FORM_string,
        },
        source: match infos.first() {
            Some(info) if present => form_of(source_or(info, empty)),
            _ => DW_FORM_string,
        },
    }
}
