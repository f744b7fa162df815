//! Copies of headers, whose programs add files of their own while they run.

ghost use Rattle.std.specs.Prelude.{map, option_map, Ok};
ghost use Rattle.gimli_units_headers.specs.Calls.{ReturnsAsOrNoMemory, ReturnsOrNoMemory};
ghost use Rattle.gimli_units_forms.specs.AttributeValues.{raw_value_of};

use crate::file::FileEntry;
use crate::formats::FileEntryFormat;
use crate::header::LineProgramHeader;
use gimli_units_forms::AttributeValue;
use gimli_units_headers::{Error, Reader};
use std::alloc::Global;

// A copy of a value, if there is one.
fn copy_of_value<R: Reader>(
    value: &Option<AttributeValue<R>>,
) -> Result<Option<AttributeValue<R>>, Error>
    ensures { ReturnsAsOrNoMemory (option_map (raw_value_of R.view R.Offset.count)) result
        (Ok (option_map (raw_value_of R.view R.Offset.count) value.now)) }
{
    match value {
        Some(value) => Ok(Some(value.copy()?)),
        None => Ok(None),
    }
}

// The same of a value on the heap.
fn copy_of_boxed_value<R: Reader>(
    value: &Option<Box<AttributeValue<R>>>,
) -> Result<Option<Box<AttributeValue<R>>>, Error>
    ensures { ReturnsAsOrNoMemory (option_map (λ v. raw_value_of R.view R.Offset.count v.value))
        result (Ok (option_map (λ v. raw_value_of R.view R.Offset.count v.value) value.now)) }
{
    match value {
        Some(value) => Ok(Some(Box::new(*Box::allocator(value), value.copy()?)?)),
        None => Ok(None),
    }
}

// Copies of formats.
fn copies_of_formats(
    alloc: Global,
    formats: &[FileEntryFormat],
) -> Result<Vec<FileEntryFormat>, Error>
    ensures { ReturnsAsOrNoMemory (λ copies. copies.items) result (Ok formats.now) }
{
    Ok(formats.to_vec(alloc)?)
}

// Copies of values.
fn copies_of_values<R: Reader>(
    alloc: Global,
    values: &[AttributeValue<R>],
) -> Result<Vec<AttributeValue<R>>, Error>
    ensures { ReturnsAsOrNoMemory (λ copies. map (raw_value_of R.view R.Offset.count) copies.items)
        result (Ok (map (raw_value_of R.view R.Offset.count) values.now)) }
{
    let mut copies = Vec::new(alloc);
    for value in values {
        copies.push(value.copy()?)?;
    }
    Ok(copies)
}

// Copies of files.
fn copies_of_files<R: Reader>(
    alloc: Global,
    files: &[FileEntry<R>],
) -> Result<Vec<FileEntry<R>>, Error>
    ensures { ReturnsAsOrNoMemory (λ copies. copies.items) result (Ok files.now) }
{
    let mut copies = Vec::new(alloc);
    for file in files {
        copies.push(file.copy()?)?;
    }
    Ok(copies)
}

// A copy of a file, if there is one.
fn copy_of_file<R: Reader>(file: &Option<FileEntry<R>>) -> Result<Option<FileEntry<R>>, Error>
    ensures { ReturnsOrNoMemory result (Ok file.now) }
{
    match file {
        Some(file) => Ok(Some(file.copy()?)),
        None => Ok(None),
    }
}

impl<R: Reader> FileEntry<R> {
    /// A second entry that says the same. Takes memory only for a text of the file, or where a copy
    /// of the reader does.
    pub fn copy(&self) -> Result<Self, Error>
        ensures { ReturnsOrNoMemory result (Ok self.now) }
    {
        Ok(FileEntry {
            path_name: self.path_name.copy()?,
            directory_index: self.directory_index,
            timestamp: self.timestamp,
            size: self.size,
            md5: self.md5,
            source: copy_of_boxed_value(&self.source)?,
        })
    }
}

impl<R: Reader> LineProgramHeader<R> {
    /// A second header that says the same. Takes memory for its tables.
    pub fn copy(&self) -> Result<Self, Error>
        ensures { ReturnsOrNoMemory result (Ok self.now) }
    {
        let alloc = *self.file_names.allocator();
        let standard_opcode_lengths = self.standard_opcode_lengths.copy()?;
        let program_buf = self.program_buf.copy()?;
        let directory_entry_format = copies_of_formats(alloc, &self.directory_entry_format)?;
        let file_name_entry_format = copies_of_formats(alloc, &self.file_name_entry_format)?;
        let include_directories = copies_of_values(alloc, &self.include_directories)?;
        let file_names = copies_of_files(alloc, &self.file_names)?;
        let comp_dir = copy_of_value(&self.comp_dir)?;
        let comp_file = copy_of_file(&self.comp_file)?;
        Ok(LineProgramHeader {
            offset: self.offset,
            unit_length: self.unit_length,
            encoding: self.encoding,
            header_length: self.header_length,
            line_encoding: self.line_encoding,
            opcode_base: self.opcode_base,
            standard_opcode_lengths,
            directory_entry_format,
            include_directories,
            file_name_entry_format,
            file_names,
            program_buf,
            comp_dir,
            comp_file,
        })
    }
}
