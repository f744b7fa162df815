//! The texts of a unit's files, by their numbers (DWARF 5, 6.2.4).

ghost use Rattle.std.specs.Prelude.{◌≡◌, map, option_map, Ok};
ghost use Rattle.std.specs.String.{string_bytes};
ghost use Rattle.gimli_lines_rows.specs.Calls.{ReturnsAsOrNoMemory};
ghost use Rattle.gimli_lines_rows.specs.LineHeaders.{file_at};
ghost use Rattle.gimli_lines_rows.specs.AttributeValues.{raw_value_of};
ghost use Rattle.addr2line_index.specs.FilePaths.{file_text_of_bytes};
ghost use Rattle.gimli_lines_rows.specs.Results.{each};
ghost use Rattle.addr2line_index.specs.FileTexts.{bytes_of, text_bytes, text_bytes_if_any, directory_of, text_of_file, text_of_file_0, files_from_1, texts_of_files};
ghost use Rattle.addr2line_root.specs.FileTextLists.{AddsTexts};

use addr2line_index::file_text_of_bytes;
use gimli_dwarf::UnitRef;
use gimli_lines_rows::{AttributeValue, Error, FileEntry, LineProgramHeader, Reader};
use std::alloc::Global;

// The text that a value stands for.
fn text_of<R: Reader>(unit: &UnitRef<'_, R>, value: &AttributeValue<R>) -> Result<R, Error>
    ensures { ReturnsAsOrNoMemory (λ text. bytes_of (R.view text)) result
        (text_bytes unit.now
        (raw_value_of R.view R.Offset.count value.now)) }
{
    Ok(unit.attr_string(value.copy()?)?)
}

// The same, where there is a value.
fn text_if_any<R: Reader>(
    unit: &UnitRef<'_, R>,
    value: Option<&AttributeValue<R>>,
) -> Result<Option<R>, Error>
    ensures { ReturnsAsOrNoMemory (option_map (λ text. bytes_of (R.view text))) result
        (text_bytes_if_any unit.now
        (option_map (λ v. raw_value_of R.view R.Offset.count v.now) value.entry)) }
{
    match value {
        Some(value) => Ok(Some(text_of(unit, value)?)),
        None => Ok(None),
    }
}

// The directory of a file, where it isn't the unit's own, with which every text begins.
fn directory_of<'header, R: Reader>(
    header: &'header LineProgramHeader<R>,
    file: &FileEntry<R>,
) -> Option<&'header AttributeValue<R>>
    ensures { option_map (λ d. raw_value_of R.view R.Offset.count d.now) result
        ≡ directory_of header.now file.now }
{
    if file.directory_index() == 0 {
        None
    } else {
        file.directory(header)
    }
}

// The bytes of a text, where there is one.
fn bytes_of<R: Reader>(text: Option<&R>) -> Option<&[u8]>
    ensures { option_map (λ t. t.now) result
        ≡ option_map (λ t. bytes_of (R.view t.now)) text.entry }
{
    match text {
        Some(text) => Some(text.as_bytes()),
        None => None,
    }
}

// The texts of a unit's directory, of a file's own and of its path, joined.
fn join_texts<R: Reader>(
    alloc: Global,
    unit_directory: Option<&R>,
    directory: Option<&R>,
    path: &R,
) -> Result<String, Error>
    ensures { ReturnsAsOrNoMemory string_bytes result (Ok (file_text_of_bytes
        (option_map (λ t. bytes_of (R.view t.now)) unit_directory.entry)
        (option_map (λ t. bytes_of (R.view t.now)) directory.entry)
        (bytes_of (R.view path.now)))) }
{
    let unit_directory = bytes_of(unit_directory);
    let directory = bytes_of(directory);
    Ok(file_text_of_bytes(alloc, unit_directory, directory, path.as_bytes())?)
}

// The text of a file, or the refusal of its directory or of its path.
fn text_of_file<R: Reader>(
    alloc: Global,
    unit: &UnitRef<'_, R>,
    header: &LineProgramHeader<R>,
    file: &FileEntry<R>,
) -> Result<String, Error>
    ensures { ReturnsAsOrNoMemory string_bytes result
        (text_of_file unit.now header.now file.now) }
{
    let directory = text_if_any(unit, directory_of(header, file))?;
    let path = text_of(unit, file.path_name())?;
    let unit = unit.unit;
    join_texts(alloc, unit.comp_dir.as_ref(), directory.as_ref(), &path)
}

// That of file 0; the empty text where there is none.
fn text_of_file_0<R: Reader>(
    alloc: Global,
    unit: &UnitRef<'_, R>,
    header: &LineProgramHeader<R>,
) -> Result<String, Error>
    ensures { ReturnsAsOrNoMemory string_bytes result
        (text_of_file_0 unit.now header.now
        (file_at header.now 0)) }
{
    match header.file(0) {
        Some(file) => text_of_file(alloc, unit, header, file),
        None => Ok(String::new(alloc)),
    }
}

// The files from number 1 on.
fn files_from_1<R: Reader>(header: &LineProgramHeader<R>) -> &[FileEntry<R>]
    ensures { result.now ≡ files_from_1 header.now }
{
    let files = header.file_names();
    if header.version() <= 4 {
        return files;
    }
    match files {
        [_, rest @ ..] => rest,
        [] => files,
    }
}

// Appends the texts of files, up to the first that can't be read.
fn push_texts<R: Reader>(
    texts: &mut Vec<String>,
    unit: &UnitRef<'_, R>,
    header: &LineProgramHeader<R>,
    files: &[FileEntry<R>],
) -> Result<(), Error>
    ensures { AddsTexts result (map string_bytes texts.old.items) (map string_bytes texts.new.items)
        (each (text_of_file unit.now header.now)
        files.now) }
{
    let alloc = *texts.allocator();
    for file in files {
        texts.push(text_of_file(alloc, unit, header, file)?)?;
    }
    Ok(())
}

// The texts of all files of a header, by their numbers, or the first refusal.
pub(crate) fn texts_of_files<R: Reader>(
    alloc: Global,
    unit: &UnitRef<'_, R>,
    header: &LineProgramHeader<R>,
) -> Result<Vec<String>, Error>
    ensures { ReturnsAsOrNoMemory (λ texts. map string_bytes texts.items) result
        (texts_of_files unit.now header.now) }
{
    let mut texts = Vec::new(alloc);
    texts.push(text_of_file_0(alloc, unit, header)?)?;
    push_texts(&mut texts, unit, header, files_from_1(header))?;
    Ok(texts)
}
