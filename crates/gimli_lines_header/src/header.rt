//! The header of a line number program.

ghost use Rattle.std.specs.Prelude.{◌≡◌, ◌≢◌, ◌+◌, ◌<◌, ◌≤◌, Bool, false, IsTrue, Ok, Err, map, OnOk, IfErr, option_map};
ghost use Rattle.std.specs.Option.{option_copied};
ghost use Rattle.gimli_units_headers.specs.View.{bytes_left};
ghost use Rattle.gimli_units_headers.specs.Calls.{ReturnsAsOrNoMemory};
ghost use Rattle.gimli_units_headers.specs.Error.TheVariants.{Memory};
ghost use Rattle.gimli_units_headers.specs.NumberParsers.{is_address_size};
ghost use Rattle.gimli_units_forms.specs.AttributeValues.{raw_value_of};
ghost use Rattle.gimli_lines_header.specs.LineFiles.{timestamp_content, size_content, md5_content, source_content, has_content};
ghost use Rattle.gimli_lines_header.specs.LineHeaders.{item_at, directory_at, file_at, files_have, with_file};

use crate::file::FileEntry;
use crate::formats::FileEntryFormat;
use gimli_units_forms::AttributeValue;
use gimli_units_headers::{
    DW_LNCT_LLVM_source, DW_LNCT_MD5, DW_LNCT_size, DW_LNCT_timestamp, DebugLineOffset, DwLnct,
    Encoding, Error, Format, LineEncoding, Reader,
};
use std::marker::Model;

/// The header of a line number program, and the bytes of the program.
pub struct LineProgramHeader<R: Reader> {
    pub(crate) offset: DebugLineOffset<R::Offset>,
    pub(crate) unit_length: R::Offset,
    pub(crate) encoding: Encoding,
    pub(crate) header_length: R::Offset,
    pub(crate) line_encoding: LineEncoding,
    pub(crate) opcode_base: u8,
    pub(crate) standard_opcode_lengths: R,
    pub(crate) directory_entry_format: Vec<FileEntryFormat>,
    pub(crate) include_directories: Vec<AttributeValue<R>>,
    pub(crate) file_name_entry_format: Vec<FileEntryFormat>,
    pub(crate) file_names: Vec<FileEntry<R>>,
    pub(crate) program_buf: R,
    pub(crate) comp_dir: Option<AttributeValue<R>>,
    pub(crate) comp_file: Option<FileEntry<R>>,
}

impl<R: Reader> Drop for LineProgramHeader<R> {
    fn drop(self) {
        let LineProgramHeader {
            offset: _,
            unit_length: _,
            encoding: _,
            header_length: _,
            line_encoding: _,
            opcode_base: _,
            standard_opcode_lengths: _,
            directory_entry_format: _,
            include_directories: _,
            file_name_entry_format: _,
            file_names: _,
            program_buf: _,
            comp_dir: _,
            comp_file: _,
        } = self;
    }
}

impl<R: Reader> Model for LineProgramHeader<R> {
    ghost use Rattle.std.specs.Prelude.{map, option_map};
    ghost use Rattle.gimli_units_forms.specs.AttributeValues.{raw_value_of};
    ghost use Rattle.gimli_lines_header.specs.LineHeaders.{LineHeader, IsWellFormed};

    ghost Value = { LineHeader };

    ghost view = { λ h. record {
      offset = R.Offset.count h.offset.0;
      unit_length = R.Offset.count h.unit_length;
      encoding = h.encoding;
      header_length = R.Offset.count h.header_length;
      line_encoding = h.line_encoding;
      opcode_base = h.opcode_base;
      standard_opcode_lengths = R.view h.standard_opcode_lengths;
      directory_formats = h.directory_entry_format.items;
      directories = map (raw_value_of R.view R.Offset.count) h.include_directories.items;
      file_formats = h.file_name_entry_format.items;
      files = h.file_names.items;
      program = R.view h.program_buf;
      unit_directory = option_map (raw_value_of R.view R.Offset.count) h.comp_dir;
      unit_file = h.comp_file;
    } };

    ghost invariant = { λ h. IsWellFormed h.encoding h.line_encoding h.opcode_base
        (R.view h.standard_opcode_lengths) h.file_name_entry_format.items };
}

impl<R: Reader> LineProgramHeader<R> {
    /// The offset of the header in `.debug_line`.
    pub fn offset(&self) -> DebugLineOffset<R::Offset>
        ensures { R.Offset.count result.0 ≡ self.now.offset }
    {
        self.offset
    }

    /// The bytes of the header and the program after the length.
    pub fn unit_length(&self) -> R::Offset
        ensures { R.Offset.count result ≡ self.now.unit_length }
    {
        self.unit_length
    }

    /// The sizes that the program's fields depend on.
    pub fn encoding(&self) -> Encoding
        ensures value { result ≡ self.now.encoding }
        ensures address { IsTrue (is_address_size result.address_size) }
    {
        self.encoding
    }

    /// The version of the section: 2 to 5.
    pub fn version(&self) -> u16
        ensures value { result ≡ self.now.encoding.version }
        ensures first { 2 ≤ result }
        ensures last { result ≤ 5 }
    {
        self.encoding.version
    }

    /// The bytes from after this field to the program.
    pub fn header_length(&self) -> R::Offset
        ensures { R.Offset.count result ≡ self.now.header_length }
    {
        self.header_length
    }

    /// The bytes of an address.
    pub fn address_size(&self) -> u8
        ensures value { result ≡ self.now.encoding.address_size }
        ensures size { IsTrue (is_address_size result) }
    {
        self.encoding.address_size
    }

    /// The format of the header's lengths and offsets: 32-bit or 64-bit DWARF.
    pub fn format(&self) -> Format
        ensures { result ≡ self.now.encoding.format }
    {
        self.encoding.format
    }

    /// The parameters of the special opcodes.
    pub fn line_encoding(&self) -> LineEncoding
        ensures value { result ≡ self.now.line_encoding }
        ensures instructions { 0 < result.minimum_instruction_length }
        ensures operations { 0 < result.maximum_operations_per_instruction }
        ensures lines { 0 < result.line_range }
    {
        self.line_encoding
    }

    /// The bytes of the target's shortest instruction.
    pub fn minimum_instruction_length(&self) -> u8
        ensures value { result ≡ self.now.line_encoding.minimum_instruction_length }
        ensures some { 0 < result }
    {
        self.line_encoding.minimum_instruction_length
    }

    /// The operations of an instruction: 1 below version 4.
    pub fn maximum_operations_per_instruction(&self) -> u8
        ensures value { result ≡ self.now.line_encoding.maximum_operations_per_instruction }
        ensures some { 0 < result }
    {
        self.line_encoding.maximum_operations_per_instruction
    }

    /// The first value of the register `is_stmt`.
    pub fn default_is_stmt(&self) -> bool
        ensures { result ≡ self.now.line_encoding.default_is_stmt }
    {
        self.line_encoding.default_is_stmt
    }

    /// The least amount by which a special opcode moves the line.
    pub fn line_base(&self) -> i8
        ensures { result ≡ self.now.line_encoding.line_base }
    {
        self.line_encoding.line_base
    }

    /// How many amounts there are by which a special opcode may move the line.
    pub fn line_range(&self) -> u8
        ensures value { result ≡ self.now.line_encoding.line_range }
        ensures some { 0 < result }
    {
        self.line_encoding.line_range
    }

    /// The first special opcode.
    pub fn opcode_base(&self) -> u8
        ensures value { result ≡ self.now.opcode_base }
        ensures some { 0 < result }
        ensures opcodes { bytes_left self.now.standard_opcode_lengths + 1 ≡ result }
    {
        self.opcode_base
    }

    /// How many LEB128 operands each standard opcode has, a byte for each opcode from 1 on.
    pub fn standard_opcode_lengths(&self) -> &R
        ensures value { R.view result.now ≡ self.now.standard_opcode_lengths }
        ensures opcodes { bytes_left (R.view result.now) + 1 ≡ self.now.opcode_base }
    {
        &self.standard_opcode_lengths
    }

    /// The fields of directories, none up to version 4.
    pub fn directory_entry_format(&self) -> &[FileEntryFormat]
        ensures { result.now ≡ self.now.directory_formats }
    {
        self.directory_entry_format.as_slice()
    }

    /// The directories that the header lists: up to version 4 from number 1 on, in version 5 from
    /// number 0 on.
    pub fn include_directories(&self) -> &[AttributeValue<R>]
        ensures { map (raw_value_of R.view R.Offset.count) result.now ≡ self.now.directories }
    {
        self.include_directories.as_slice()
    }

    /// The fields of files, none up to version 4.
    pub fn file_name_entry_format(&self) -> &[FileEntryFormat]
        ensures { result.now ≡ self.now.file_formats }
    {
        self.file_name_entry_format.as_slice()
    }

    /// The files that the header lists, and those that were added: up to version 4 from number 1
    /// on, in version 5 from number 0 on.
    pub fn file_names(&self) -> &[FileEntry<R>]
        ensures { result.now ≡ self.now.files }
    {
        self.file_names.as_slice()
    }

    /// The bytes of the program.
    pub fn program_reader(&self) -> &R
        ensures { R.view result.now ≡ self.now.program }
    {
        &self.program_buf
    }

    /// A copy of the bytes of the program. Takes memory only where a copy of the reader does.
    pub fn raw_program_buf(&self) -> Result<R, Error>
        ensures value { ReturnsAsOrNoMemory R.view result (Ok self.now.program) }
        ensures free { IsTrue R.copies_freely → result ≢ Err Memory }
    {
        self.program_buf.copy()
    }
}

// ---- directories and files by their numbers

impl<R: Reader> LineProgramHeader<R> {
    /// The directory of a number. Up to version 4 directory 0 is the unit's, where it is known.
    #[tactic(auto, using(crate::proofs::NumberedItems::item_at_map))]
    pub fn directory(&self, directory: u64) -> Option<&AttributeValue<R>>
        ensures { option_map (λ d. raw_value_of R.view R.Offset.count d.now) result
            ≡ directory_at self.now directory }
    {
        let unit_directory = self.comp_dir.as_ref();
        item_at(
            self.encoding.version,
            unit_directory,
            &self.include_directories,
            directory,
        )
    }

    /// The file of a number. Up to version 4 file 0 is the unit's, where its name is known.
    pub fn file(&self, file: u64) -> Option<&FileEntry<R>>
        ensures { option_copied result ≡ file_at self.now file }
    {
        let unit_file = self.comp_file.as_ref();
        item_at(self.encoding.version, unit_file, &self.file_names, file)
    }

    /// A further file after the others, as an instruction up to version 4 may define one. A
    /// refusal leaves the header unchanged.
    pub fn add_file(&mut self, file: FileEntry<R>) -> Result<(), Error>
        ensures ok { OnOk result (self.new ≡ with_file file self.old) }
        ensures err { IfErr result (λ e. (e ≡ Memory) × (self.new ≡ self.old)) }
    {
        self.file_names.push(file)?;
        Ok(())
    }

    /// Whether files have a time of their last modification: up to version 4 all have.
    pub fn file_has_timestamp(&self) -> bool
        ensures { result ≡ files_have timestamp_content self.now }
    {
        self.encoding.version <= 4 || lists(&self.file_name_entry_format, DW_LNCT_timestamp)
    }

    /// Whether files have a size: up to version 4 all have.
    pub fn file_has_size(&self) -> bool
        ensures { result ≡ files_have size_content self.now }
    {
        self.encoding.version <= 4 || lists(&self.file_name_entry_format, DW_LNCT_size)
    }

    /// Whether files have a digest: up to version 4 none has.
    pub fn file_has_md5(&self) -> bool
        ensures value { result ≡ has_content md5_content self.now.file_formats }
        ensures older { self.now.encoding.version ≤ 4 → result ≡ false }
    {
        lists(&self.file_name_entry_format, DW_LNCT_MD5)
    }

    /// Whether files have their text: up to version 4 none has.
    pub fn file_has_source(&self) -> bool
        ensures value { result ≡ has_content source_content self.now.file_formats }
        ensures older { self.now.encoding.version ≤ 4 → result ≡ false }
    {
        lists(&self.file_name_entry_format, DW_LNCT_LLVM_source)
    }
}

// The item of a number: up to version 4 from number 1 on, and number 0 is the unit's.
fn item_at<'a, T>(version: u16, zeroth: Option<&'a T>, items: &'a [T], number: u64) -> Option<&'a T>
    ensures { option_copied result
        ≡ item_at version (option_copied zeroth.entry) items.now number }
{
    if version > 4 {
        items.get(number as usize)
    } else if number == 0 {
        zeroth
    } else {
        items.get((number - 1) as usize)
    }
}

// Whether a field has this content.
fn lists(formats: &[FileEntryFormat], content_type: DwLnct) -> bool
    ensures { result ≡ has_content content_type.0 formats.now }
{
    formats
        .iter()
        .any(|format| format.content_type.0 == content_type.0)
}
