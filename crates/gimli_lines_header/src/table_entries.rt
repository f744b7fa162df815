//! The entries of directories and files in version 5.

ghost use Rattle.std.specs.Prelude.{◌≡◌, Ok, IfSome, option_map};
ghost use Rattle.gimli_units_headers.specs.Calls.{ReturnsAsOrNoMemory};
ghost use Rattle.gimli_units_headers.specs.Parsers.{map_value};
ghost use Rattle.gimli_units_forms.specs.AttributeValues.{raw_value_of};
ghost use Rattle.gimli_lines_header.specs.TableEntries.{entry_value, no_facts, facts_with, entry, directory_entry, file_entry};
ghost use Rattle.gimli_lines_header.specs.UsualFormats.{usual_formats};

use crate::field_values::{check_value, parse_digest, parse_number, parse_value};
use crate::file::FileEntry;
use crate::formats::FileEntryFormat;
use crate::usual_entries::{self, UsualFields};
use gimli_units_forms::AttributeValue;
use gimli_units_headers::{
    DW_LNCT_LLVM_source, DW_LNCT_MD5, DW_LNCT_directory_index, DW_LNCT_path, DW_LNCT_size,
    DW_LNCT_timestamp, Encoding, Error, Reader,
};
use std::alloc::Global;
use std::marker::Model;

// What the fields of an entry say.
#[derive(Drop)]
pub(crate) struct EntryFields<R: Reader> {
    path: Option<AttributeValue<R>>,
    directory_index: u64,
    timestamp: u64,
    size: u64,
    md5: [u8; 16],
    source: Option<AttributeValue<R>>,
}

impl<R: Reader> Model for EntryFields<R> {
    ghost use Rattle.std.specs.Prelude.{option_map};
    ghost use Rattle.gimli_units_forms.specs.AttributeValues.{raw_value_of};
    ghost use Rattle.gimli_lines_header.specs.TableEntries.{EntryFacts};

    ghost Value = { EntryFacts };

    ghost view = { λ f. record {
      path = option_map (raw_value_of R.view R.Offset.count) f.path;
      directory_index = f.directory_index;
      timestamp = f.timestamp;
      size = f.size;
      md5 = f.md5;
      source = option_map (raw_value_of R.view R.Offset.count) f.source;
    } };
}

impl<R: Reader> EntryFields<R> {
    // Nothing is said yet.
    fn none() -> Self
        ensures { result ≡ no_facts }
    {
        EntryFields {
            path: None,
            directory_index: 0,
            timestamp: 0,
            size: 0,
            md5: [0; 16],
            source: None,
        }
    }

    // Reads a further field, and takes what it says.
    #[tactic(auto, using(crate::proofs::CheckSteps::same_answers))]
    #[inline(always)]
    fn read(
        &mut self,
        input: &mut R,
        encoding: Encoding,
        format: FileEntryFormat,
        endian: R::Endian,
    ) -> Result<(), Error>
        ensures { ReturnsAsOrNoMemory (λ _. (self.new, R.view input.new)) result
            (map_value (facts_with (R.Endian.is_big endian) self.old format.content_type.0)
            (entry_value R.Offset.limit encoding format.form.0) (R.view input.old)) }
    {
        let form = format.form;
        match format.content_type {
            DW_LNCT_path => self.path = Some(parse_value(input, encoding, form)?),
            DW_LNCT_directory_index => {
                let number = parse_number(input, encoding, form)?;
                self.directory_index = number.unwrap_or(self.directory_index);
            }
            DW_LNCT_timestamp => {
                let number = parse_number(input, encoding, form)?;
                self.timestamp = number.unwrap_or(self.timestamp);
            }
            DW_LNCT_size => {
                let number = parse_number(input, encoding, form)?;
                self.size = number.unwrap_or(self.size);
            }
            DW_LNCT_MD5 => {
                let digest = parse_digest(input, encoding, form, endian)?;
                self.md5 = digest.unwrap_or(self.md5);
            }
            DW_LNCT_LLVM_source => self.source = Some(parse_value(input, encoding, form)?),
            _ => check_value::<R::Offset, R>(input, encoding, form)?,
        }
        Ok(())
    }
}

// The fields of an entry.
#[tactic(auto, unfolding(crate::specs::TableEntries::entry))]
fn parse_fields<R: Reader>(
    input: &mut R,
    encoding: Encoding,
    formats: &[FileEntryFormat],
) -> Result<EntryFields<R>, Error>
    ensures { ReturnsAsOrNoMemory (λ fields. (fields, R.view input.new)) result
        (entry R.Offset.limit encoding formats.now (R.view input.old)) }
{
    let endian = input.endian();
    let mut fields = EntryFields::none();
    for format in formats {
        fields.read(input, encoding, *format, endian)?;
    }
    Ok(fields)
}

// A directory of any fields: the path of an entry.
#[tactic(auto, unfolding(crate::specs::TableEntries::directory_entry))]
fn parse_any_directory<R: Reader>(
    input: &mut R,
    encoding: Encoding,
    formats: &[FileEntryFormat],
) -> Result<AttributeValue<R>, Error>
    ensures { ReturnsAsOrNoMemory (λ path.
        (raw_value_of R.view R.Offset.count path, R.view input.new)) result
        (directory_entry R.Offset.limit encoding formats.now (R.view input.old)) }
{
    let fields = parse_fields(input, encoding, formats)?;
    fields.path.ok_or(Error::MissingFileEntryFormatPath)
}

// A directory, whose fields may be usual ones.
#[inline(always)]
pub(crate) fn parse_directory<R: Reader>(
    input: &mut R,
    encoding: Encoding,
    formats: &[FileEntryFormat],
    usual: Option<UsualFields>,
) -> Result<AttributeValue<R>, Error>
    requires { IfSome usual (λ fields. usual_formats fields ≡ formats.now) }
    ensures { ReturnsAsOrNoMemory (λ path.
        (raw_value_of R.view R.Offset.count path, R.view input.new)) result
        (directory_entry R.Offset.limit encoding formats.now (R.view input.old)) }
{
    if let Some(fields) = usual
        && let Some((directory, count)) = usual_entries::parse_directory(input, encoding, fields)
    {
        input.advance(count);
        return Ok(directory);
    }
    parse_any_directory(input, encoding, formats)
}

// A value on the heap, if there is one.
fn boxed_value<R: Reader>(
    alloc: Global,
    value: Option<AttributeValue<R>>,
) -> Result<Option<Box<AttributeValue<R>>>, Error>
    ensures { ReturnsAsOrNoMemory (option_map (λ v. raw_value_of R.view R.Offset.count v.value))
        result (Ok (option_map (raw_value_of R.view R.Offset.count) value)) }
{
    match value {
        Some(value) => Ok(Some(Box::new(alloc, value)?)),
        None => Ok(None),
    }
}

// A file of any fields.
#[tactic(auto, unfolding(crate::specs::TableEntries::file_entry))]
fn parse_any_file<R: Reader>(
    alloc: Global,
    input: &mut R,
    encoding: Encoding,
    formats: &[FileEntryFormat],
) -> Result<FileEntry<R>, Error>
    ensures { ReturnsAsOrNoMemory (λ file. (file, R.view input.new)) result
        (file_entry R.Offset.limit encoding formats.now (R.view input.old)) }
{
    let fields = parse_fields(input, encoding, formats)?;
    Ok(FileEntry {
        path_name: fields.path.ok_or(Error::MissingFileEntryFormatPath)?,
        directory_index: fields.directory_index,
        timestamp: fields.timestamp,
        size: fields.size,
        md5: fields.md5,
        source: boxed_value(alloc, fields.source)?,
    })
}

// A file, whose fields may be usual ones.
#[inline(always)]
pub(crate) fn parse_file<R: Reader>(
    alloc: Global,
    input: &mut R,
    encoding: Encoding,
    formats: &[FileEntryFormat],
    usual: Option<UsualFields>,
) -> Result<FileEntry<R>, Error>
    requires { IfSome usual (λ fields. usual_formats fields ≡ formats.now) }
    ensures { ReturnsAsOrNoMemory (λ file. (file, R.view input.new)) result
        (file_entry R.Offset.limit encoding formats.now (R.view input.old)) }
{
    if let Some(fields) = usual
        && let Some((file, count)) = usual_entries::parse_file(input, encoding, fields)
    {
        input.advance(count);
        return Ok(file);
    }
    parse_any_file(alloc, input, encoding, formats)
}
