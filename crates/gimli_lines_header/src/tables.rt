//! The tables of directories and files in a header.

ghost use Rattle.std.specs.Prelude.{◌≡◌, ◌≤◌, [], map, option_map, IfOk};
ghost use Rattle.gimli_units_headers.specs.Calls.{ReturnsAsOrNoMemory};
ghost use Rattle.gimli_units_headers.specs.Repetition.{times};
ghost use Rattle.gimli_units_headers.specs.View.{bytes_left};
ghost use Rattle.gimli_units_forms.specs.AttributeValues.{raw_value_of};
ghost use Rattle.gimli_lines_header.specs.TableEntries.{directory_entry, file_entry};
ghost use Rattle.gimli_lines_header.specs.HeaderTables.{directory_text, file_text, directory_texts, file_texts, directory_entries, file_entries, directories_of_5, files_of_5, directories, files};

use crate::file::FileEntry;
use crate::formats::{self, FileEntryFormat};
use crate::table_entries::{parse_directory, parse_file};
use crate::usual_entries::{UsualFields, most_entries, usual_fields};
use gimli_units_forms::AttributeValue;
use gimli_units_headers::{Encoding, Error, Reader};
use std::alloc::Global;

// ---- up to version 4

// A directory, or none at the empty text that ends them.
#[tactic(auto, unfolding(crate::specs::HeaderTables::directory_text))]
fn parse_directory_text<R: Reader>(input: &mut R) -> Result<Option<AttributeValue<R>>, Error>
    ensures { ReturnsAsOrNoMemory (λ d. (
      option_map (raw_value_of R.view R.Offset.count) d,
      R.view input.new,
    )) result
        (directory_text (R.view input.old)) }
{
    let text = input.read_null_terminated_slice()?;
    if text.is_empty() {
        return Ok(None);
    }
    Ok(Some(AttributeValue::String(text)))
}

// A file, or none at the empty path that ends them.
#[tactic(auto, unfolding(crate::specs::HeaderTables::file_text))]
#[inline(always)]
fn parse_file_text<R: Reader>(input: &mut R) -> Result<Option<FileEntry<R>>, Error>
    ensures { ReturnsAsOrNoMemory (λ file. (file, R.view input.new)) result
        (file_text (R.view input.old)) }
{
    let path = input.read_null_terminated_slice()?;
    if path.is_empty() {
        return Ok(None);
    }
    Ok(Some(FileEntry::parse(input, path)?))
}

// The directories up to an empty text.
#[tactic(auto, unfolding(crate::specs::HeaderTables::directory_texts))]
fn parse_directory_texts<R: Reader>(
    alloc: Global,
    input: &mut R,
) -> Result<Vec<AttributeValue<R>>, Error>
    ensures { ReturnsAsOrNoMemory (λ list.
        (map (raw_value_of R.view R.Offset.count) list.items, R.view input.new)) result
        (directory_texts (R.view input.old)) }
{
    let mut found = Vec::new(alloc);
    while let Some(directory) = parse_directory_text(input)? {
        found.push(directory)?;
    }
    Ok(found)
}

// The files up to an empty path.
#[tactic(auto, unfolding(crate::specs::HeaderTables::file_texts))]
fn parse_file_texts<R: Reader>(alloc: Global, input: &mut R) -> Result<Vec<FileEntry<R>>, Error>
    ensures { ReturnsAsOrNoMemory (λ list. (list.items, R.view input.new)) result
        (file_texts (R.view input.old)) }
{
    let mut found = Vec::new(alloc);
    while let Some(file) = parse_file_text(input)? {
        found.push(file)?;
    }
    Ok(found)
}

// ---- in version 5

// The most entries that memory is taken for before they are read.
const MOST_AT_ONCE: u64 = 1024;

// How many entries to take memory for at once: all of them, or as many as the bytes left can hold,
// or the most, so that a number which isn't true takes little.
fn room<R: Reader>(input: &R, usual: Option<UsualFields>, count: u64) -> usize
    ensures within { result ≤ bytes_left (R.view input.now) }
    ensures counted { result ≤ count }
    ensures limited { result ≤ MOST_AT_ONCE }
{
    let most = most_entries(input.as_bytes().len() as u64, usual);
    count.min(most).min(MOST_AT_ONCE) as usize
}

// `count` directories.
fn parse_counted_directories<R: Reader>(
    alloc: Global,
    input: &mut R,
    encoding: Encoding,
    formats: &[FileEntryFormat],
    count: u64,
) -> Result<Vec<AttributeValue<R>>, Error>
    ensures { ReturnsAsOrNoMemory (λ list.
        (map (raw_value_of R.view R.Offset.count) list.items, R.view input.new)) result
        (times count (directory_entry R.Offset.limit encoding formats.now) (R.view input.old)) }
{
    let usual = usual_fields(formats);
    let mut found = Vec::with_capacity(alloc, room(input, usual, count))?;
    for _directory in 0..count {
        found.push(parse_directory(input, encoding, formats, usual)?)?;
    }
    Ok(found)
}

// `count` files.
fn parse_counted_files<R: Reader>(
    alloc: Global,
    input: &mut R,
    encoding: Encoding,
    formats: &[FileEntryFormat],
    count: u64,
) -> Result<Vec<FileEntry<R>>, Error>
    ensures { ReturnsAsOrNoMemory (λ list. (list.items, R.view input.new)) result
        (times count (file_entry R.Offset.limit encoding formats.now) (R.view input.old)) }
{
    let usual = usual_fields(formats);
    let mut found = Vec::with_capacity(alloc, room(input, usual, count))?;
    for _file in 0..count {
        found.push(parse_file(alloc, input, encoding, formats, usual)?)?;
    }
    Ok(found)
}

// As many directories as a number says.
#[tactic(auto, unfolding(crate::specs::HeaderTables::directory_entries))]
fn parse_directory_entries<R: Reader>(
    alloc: Global,
    input: &mut R,
    encoding: Encoding,
    formats: &[FileEntryFormat],
) -> Result<Vec<AttributeValue<R>>, Error>
    ensures { ReturnsAsOrNoMemory (λ list.
        (map (raw_value_of R.view R.Offset.count) list.items, R.view input.new)) result
        (directory_entries R.Offset.limit encoding formats.now (R.view input.old)) }
{
    let count = input.read_uleb128()?;
    parse_counted_directories(alloc, input, encoding, formats, count)
}

// As many files as a number says.
#[tactic(auto, unfolding(crate::specs::HeaderTables::file_entries))]
fn parse_file_entries<R: Reader>(
    alloc: Global,
    input: &mut R,
    encoding: Encoding,
    formats: &[FileEntryFormat],
) -> Result<Vec<FileEntry<R>>, Error>
    ensures { ReturnsAsOrNoMemory (λ list. (list.items, R.view input.new)) result
        (file_entries R.Offset.limit encoding formats.now (R.view input.old)) }
{
    let count = input.read_uleb128()?;
    parse_counted_files(alloc, input, encoding, formats, count)
}

// The formats of directories, and the directories.
#[tactic(auto, unfolding(crate::specs::HeaderTables::directories_of_5))]
fn parse_described_directories<R: Reader>(
    alloc: Global,
    input: &mut R,
    encoding: Encoding,
) -> Result<(Vec<FileEntryFormat>, Vec<AttributeValue<R>>), Error>
    ensures { ReturnsAsOrNoMemory (λ p.
        ((p.0.items, map (raw_value_of R.view R.Offset.count) p.1.items), R.view input.new))
        result
        (directories_of_5 R.Offset.limit encoding (R.view input.old)) }
{
    let formats = formats::parse(alloc, input)?;
    let found = parse_directory_entries(alloc, input, encoding, &formats)?;
    Ok((formats, found))
}

// The formats of files, and the files.
#[tactic(auto, unfolding(crate::specs::HeaderTables::files_of_5))]
fn parse_described_files<R: Reader>(
    alloc: Global,
    input: &mut R,
    encoding: Encoding,
) -> Result<(Vec<FileEntryFormat>, Vec<FileEntry<R>>), Error>
    ensures { ReturnsAsOrNoMemory (λ p. ((p.0.items, p.1.items), R.view input.new))
        result
        (files_of_5 R.Offset.limit encoding (R.view input.old)) }
{
    let formats = formats::parse(alloc, input)?;
    let found = parse_file_entries(alloc, input, encoding, &formats)?;
    Ok((formats, found))
}

// ---- in every version

// The formats of directories, none up to version 4, and the directories.
#[tactic(auto, unfolding(crate::specs::HeaderTables::directories))]
pub(crate) fn parse_directories<R: Reader>(
    alloc: Global,
    input: &mut R,
    encoding: Encoding,
) -> Result<(Vec<FileEntryFormat>, Vec<AttributeValue<R>>), Error>
    ensures { ReturnsAsOrNoMemory (λ p.
        ((p.0.items, map (raw_value_of R.view R.Offset.count) p.1.items), R.view input.new))
        result
        (directories R.Offset.limit encoding (R.view input.old)) }
{
    if encoding.version > 4 {
        return parse_described_directories(alloc, input, encoding);
    }
    let found = parse_directory_texts(alloc, input)?;
    Ok((Vec::new(alloc), found))
}

// The formats of files, none up to version 4, and the files.
#[tactic(auto, unfolding(crate::specs::HeaderTables::files))]
pub(crate) fn parse_files<R: Reader>(
    alloc: Global,
    input: &mut R,
    encoding: Encoding,
) -> Result<(Vec<FileEntryFormat>, Vec<FileEntry<R>>), Error>
    ensures value { ReturnsAsOrNoMemory (λ p.
        ((p.0.items, p.1.items), R.view input.new)) result
        (files R.Offset.limit encoding (R.view input.old)) }
    ensures older { encoding.version ≤ 4 → IfOk result (λ p. p.0.items ≡ []) }
{
    if encoding.version > 4 {
        return parse_described_files(alloc, input, encoding);
    }
    let found = parse_file_texts(alloc, input)?;
    Ok((Vec::new(alloc), found))
}
