//! The builder of line number programs.

ghost use Rattle.std.specs.Prelude.{◌≡◌, ◌≢◌, ◌↔◌, ◌≤◌, ◌<◌, ◌^◌, All, [], ◌==◌, ◌&&◌, true, false, length, map, set, Some, slice_get, option_map, OnOk, OnErr, IfOk, IfErr};
ghost use Rattle.gimli_lines_write_laws.specs.WriteError.TheVariants.{Memory};
ghost use Rattle.gimli_lines_write_laws.specs.RowPieces.{IsBuildable};
ghost use Rattle.gimli_lines_write_laws.specs.FileTables.{text_of, file_of, info_of, is_same, is_same_file, with_directory, with_file, HasNoZero, HasBytes, IsConsistent};
ghost use Rattle.gimli_lines_write_laws.specs.StringSections.{item_index};
ghost use Rattle.gimli_lines_write_laws.specs.ProgramReadBack.{InfoFits};
ghost use Rattle.gimli_lines_write_program.specs.TextTests.{has_texts};
ghost use Rattle.gimli_lines_write_program.specs.FormTests.{has_version, has_forms, is_writable};
ghost use Rattle.gimli_lines_write_program.specs.BuiltPrograms.{Program, rules_with, new_program, none_program, IsBuilt, HasItsTexts, CanBeWritten, program_bytes, ReadsBack, WritesIfExpressible, strings_with, line_strings_with};
ghost use Rattle.gimli_lines_write_laws.specs.BuiltRows.{first_row, row_after_row, can_place, can_follow};
ghost use Rattle.gimli_lines_write_laws.specs.EntryBytes.{Continues};
ghost use Rattle.gimli_lines_write_laws.specs.LineEntry.TheVariants.{Row, EndSequence};
ghost use Rattle.gimli_lines_write_laws.specs.HeaderContents.{GainsEmpty, records_source};
ghost use Rattle.gimli_lines_write_laws.specs.RowsBuilding.{with_sequence, with_address, with_entry};
ghost use Rattle.std.specs.Borrow.{Lends, sem};
ghost use Rattle.gimli_lines_write_program.specs.contracts.program.LineProgram.{the_row};
ghost use Rattle.gimli_lines_write_tables.specs.contracts.file.FileInfo.{the_row as info_row};

use crate::forms::{have_one_form, have_paths_of_one_form, have_sources_of_one_form};
use crate::ranges::{are_few, are_in_range};
use crate::text_checks::{are_known, are_paths_known, are_sources_known};
use gimli_lines_write_laws::{
    Address, DebugLineOffset, DirectoryId, Encoding, Error, FileDetails, FileId, FileInfo, FileKey,
    FileTable, Format, LineEncoding, LineRow, LineRules, LineString, LineStringTable, RowsBuilder,
    StringTable, Writer, listed_directories, write_unit,
};
use std::alloc::Global;
use std::marker::Model;

/// A line number program: directories, files and sequences of rows. A refused call changes nothing.
pub struct LineProgram {
    is_none: bool,
    tables: FileTable,
    rows: RowsBuilder,
    /// Whether times of last modification are recorded of files, in version 5.
    pub file_has_timestamp: bool,
    /// Whether sizes are recorded of files, in version 5.
    pub file_has_size: bool,
    /// Whether digests are recorded of files, in version 5.
    pub file_has_md5: bool,
    /// Whether texts are recorded of files, in version 5.
    pub file_has_source: bool,
}

impl Drop for LineProgram {
    fn drop(self) {
        let LineProgram {
            is_none: _,
            tables: _,
            rows: _,
            file_has_timestamp: _,
            file_has_size: _,
            file_has_md5: _,
            file_has_source: _,
        } = self;
    }
}

impl Model for LineProgram {
    ghost use Rattle.std.specs.Prelude.{◌≡◌};
    ghost use Rattle.gimli_lines_write_program.specs.BuiltPrograms.{Program};

    ghost Value = { Program };

    ghost view = { λ p. record {
      is_none = p.is_none;
      tables = p.tables;
      details = record {
        has_timestamp = p.file_has_timestamp;
        has_size = p.file_has_size;
        has_md5 = p.file_has_md5;
        has_source = p.file_has_source;
      };
      rows = p.rows;
    } };

    ghost invariant = { λ p. p.tables.version ≡ p.rows.rules.encoding.version };
}

// What holds of the tables of every program.
fn are_built(tables: &FileTable)
    ensures consistent { IsConsistent tables.now.version tables.now.directories tables.now.files
        tables.now.infos }
    ensures fit { All InfoFits tables.now.infos }
    ensures few { length tables.now.directories < 2 ^ 64 }
{
    let directories = tables.directories();
    are_few(directories);
    let infos = tables.infos();
    are_in_range(infos);
}

// The parameters of instructions are bytes.
fn byte_parameters(encoding: LineEncoding) -> (u8, u8)
    ensures least { encoding.minimum_instruction_length < 256 }
    ensures most { encoding.maximum_operations_per_instruction < 256 }
{
    (
        encoding.minimum_instruction_length,
        encoding.maximum_operations_per_instruction,
    )
}

impl LineProgram {
    /// A program of a working directory, which is the default one, and a source file: in version 5
    /// file 0, below it not used.
    pub fn new(
        alloc: Global,
        encoding: Encoding,
        line_encoding: LineEncoding,
        working_dir: LineString,
        source_file: LineString,
    ) -> Result<Self, Error>
        requires buildable { IsBuildable (rules_with encoding line_encoding) }
        requires working_dir { HasNoZero (text_of working_dir) }
        requires source_file { HasNoZero (text_of source_file) }
        ensures ok { IfOk result (λ p. p ≡ new_program encoding line_encoding (text_of working_dir)
            (text_of source_file)) }
        ensures refusal { IfErr result (λ e. e ≡ Memory) }
    {
        let mut tables = FileTable::new(alloc, encoding.version);
        let directory = tables.add_directory(working_dir)?;
        if encoding.version > 4 {
            tables.add_file(source_file, directory, None)?;
        }
        let rules = LineRules {
            encoding,
            line_encoding,
            opcode_base: 13,
        };
        Ok(LineProgram {
            is_none: false,
            tables,
            rows: RowsBuilder::new(alloc, rules),
            file_has_timestamp: false,
            file_has_size: false,
            file_has_md5: false,
            file_has_source: false,
        })
    }

    /// No program, for a unit that has none: of version 2 in 32-bit format, with addresses of eight
    /// bytes. It takes no memory, and isn't to be written.
    pub fn none(alloc: Global) -> Self
        ensures { result ≡ none_program }
    {
        let rules = LineRules {
            encoding: Encoding {
                address_size: 8,
                format: Format::Dwarf32,
                version: 2,
            },
            line_encoding: LineEncoding::default(),
            opcode_base: 13,
        };
        LineProgram {
            is_none: true,
            tables: FileTable::new(alloc, 2),
            rows: RowsBuilder::new(alloc, rules),
            file_has_timestamp: false,
            file_has_size: false,
            file_has_md5: false,
            file_has_source: false,
        }
    }

    /// Whether this is no program.
    pub fn is_none(&self) -> bool
        ensures { result ≡ self.now.is_none }
    {
        self.is_none
    }

    /// The version, the format and the bytes of an address.
    pub fn encoding(&self) -> Encoding
        ensures { result ≡ self.now.rows.rules.encoding }
    {
        self.rows.rules().encoding
    }

    /// The version.
    pub fn version(&self) -> u16
        ensures { result ≡ self.now.rows.rules.encoding.version }
    {
        self.encoding().version
    }

    /// The bytes of an address.
    pub fn address_size(&self) -> u8
        ensures { result ≡ self.now.rows.rules.encoding.address_size }
    {
        self.encoding().address_size
    }

    /// The format.
    pub fn format(&self) -> Format
        ensures { result ≡ self.now.rows.rules.encoding.format }
    {
        self.encoding().format
    }

    /// The working directory, which is the first.
    pub fn default_directory(&self) -> DirectoryId
        ensures { result.0 ≡ 0 }
    {
        DirectoryId(0)
    }

    /// The id of a directory, which is added where it isn't there. It holds no zero byte, and up to
    /// version 4 it isn't empty, the working directory apart.
    pub fn add_directory(&mut self, directory: LineString) -> Result<DirectoryId, Error>
        requires zero_free { HasNoZero (text_of directory) }
        requires not_empty { self.old.tables.version ≤ 4 → self.old.tables.directories ≢ []
            → HasBytes (text_of directory) }
        ensures ok { OnOk result (self.new ≡ record self.old
            { tables = with_directory (text_of directory) self.old.tables }) }
        ensures place { IfOk result (λ id. id.0 ≡ item_index is_same self.old.tables.directories
            (text_of directory)) }
        ensures within { IfOk result (λ id. id.0 < length self.new.tables.directories) }
        ensures err { OnErr result (self.new ≡ self.old) }
        ensures refusal { IfErr result (λ e. e ≡ Memory) }
    {
        self.tables.add_directory(directory)
    }

    /// The directory of an id.
    pub fn get_directory(&self, id: DirectoryId) -> &LineString
        requires { id.0 < length self.now.tables.directories }
        ensures { slice_get self.now.tables.directories id.0 ≡ Some (text_of result.now) }
    {
        self.tables.directory(id)
    }

    /// The id of a file in one of the directories, which is added where it isn't there. Its path
    /// holds no zero byte, and up to version 4 it isn't empty. New information replaces what was
    /// recorded before; without any, that stays, and nothing is recorded of a new file.
    pub fn add_file(
        &mut self,
        file: LineString,
        directory: DirectoryId,
        info: Option<FileInfo>,
    ) -> Result<FileId, Error>
        requires zero_free { HasNoZero (text_of file) }
        requires directory { directory.0 < length self.old.tables.directories }
        requires not_empty { self.old.tables.version ≤ 4 → HasBytes (text_of file) }
        ensures ok { OnOk result (self.new ≡ record self.old {
          tables = with_file (record { path = text_of file; directory = directory.0 })
              (option_map info_of info) self.old.tables;
        }) }
        ensures place { IfOk result (λ id. id.0 ≡ item_index is_same_file self.old.tables.files
            (record { path = text_of file; directory = directory.0 })) }
        ensures within { IfOk result (λ id. id.0 < length self.new.tables.files) }
        ensures err { OnErr result (self.new ≡ self.old) }
        ensures refusal { IfErr result (λ e. e ≡ Memory) }
    {
        self.tables.add_file(file, directory, info)
    }

    /// The path and the directory of a file.
    pub fn get_file(&self, id: FileId) -> (&LineString, DirectoryId)
        requires { id.0 < length self.now.tables.files }
        ensures { slice_get self.now.tables.files id.0
            ≡ Some (record { path = text_of result.0.now; directory = result.1.0 }) }
    {
        self.tables.file(id)
    }

    /// The files, by their ids: the first has id 0.
    pub fn files(&self) -> &[FileKey]
        ensures { map file_of result.now ≡ self.now.tables.files }
    {
        self.tables.files()
    }

    /// What is recorded of a file.
    pub fn get_file_info(&self, id: FileId) -> &FileInfo
        requires { id.0 < length self.now.tables.files }
        ensures { slice_get self.now.tables.infos id.0 ≡ Some (info_of result.now) }
    {
        self.tables.info(id)
    }

    /// What is recorded of a file, to be changed.
    pub fn get_file_info_mut(&mut self, id: FileId) -> &mut FileInfo
        requires { id.0 < length self.old.tables.files }
        ensures value { slice_get self.old.tables.infos id.0 ≡ Some (info_of result.now) }
        ensures* after { sem 𝓛 (Lends the_row info_row self.entry result
            (λ w. record self.old {
              tables =
                  record self.old.tables { infos = set self.old.tables.infos id.0 (info_of w) };
            })) }
    {
        self.tables.info_mut(id)
    }

    /// Begins a sequence where none is open, at an address where one is given, else at 0.
    pub fn begin_sequence(&mut self, address: Option<Address>) -> Result<(), Error>
        requires { self.old.rows.in_sequence ≡ false }
        ensures ok { OnOk result (self.new ≡ record self.old
            { rows = with_sequence address self.old.rows }) }
        ensures err { OnErr result (self.new ≡ self.old) }
        ensures refusal { IfErr result (λ e. e ≡ Memory) }
    {
        self.rows.begin_sequence(address)
    }

    /// Sets the address from which offsets count, in a sequence; the next row is there.
    pub fn set_address(&mut self, address: Address) -> Result<(), Error>
        requires { self.old.rows.in_sequence ≡ true }
        ensures ok { OnOk result (self.new ≡ record self.old
            { rows = with_address address self.old.rows }) }
        ensures err { OnErr result (self.new ≡ self.old) }
        ensures refusal { IfErr result (λ e. e ≡ Memory) }
    {
        self.rows.set_address(address)
    }

    /// Whether a sequence is open.
    pub fn in_sequence(&self) -> bool
        ensures { result ≡ self.now.rows.in_sequence }
    {
        self.rows.in_sequence()
    }

    /// Whether no row, address or end was built.
    pub fn is_empty(&self) -> bool
        ensures { result ≡ (length self.now.rows.entries == 0) }
    {
        self.rows.is_empty()
    }

    /// The row that comes next.
    pub fn row(&self) -> LineRow
        ensures { result ≡ self.now.rows.row }
    {
        self.rows.row()
    }

    /// Sets the row that comes next.
    pub fn set_row(&mut self, row: LineRow)
        ensures { self.new ≡ record self.old { rows = record self.old.rows { row = row } } }
    {
        self.rows.set_row(row)
    }

    /// Whether the row that comes next can follow: a sequence is open, its place doesn't go back,
    /// its offset is one of an instruction, its operation is below the operations of an
    /// instruction, the operations between fit 64 bits, and its line is at most `i64::MAX`.
    pub fn can_row(&self) -> bool
        ensures { result ≡ (self.now.rows.in_sequence
            && can_follow self.now.rows.rules self.now.rows.previous self.now.rows.row) }
    {
        self.rows.can_row()
    }

    /// Whether the sequence can end that many bytes after the address that was set last.
    pub fn can_end(&self, address_offset: u64) -> bool
        ensures { result ≡ (self.now.rows.in_sequence
            && can_place self.now.rows.rules self.now.rows.previous address_offset
            self.now.rows.row.op_index) }
    {
        self.rows.can_end(address_offset)
    }

    /// Adds the row; what holds for it alone is cleared for the next one.
    pub fn generate_row(&mut self) -> Result<(), Error>
        requires open { self.old.rows.in_sequence ≡ true }
        requires follows { can_follow self.old.rows.rules self.old.rows.previous self.old.rows.row
            ≡ true }
        ensures ok { OnOk result (self.new ≡ record self.old {
          rows = record (with_entry (Row self.old.rows.row) self.old.rows)
              { row = row_after_row self.old.rows.row };
        }) }
        ensures err { OnErr result (self.new ≡ self.old) }
        ensures refusal { IfErr result (λ e. e ≡ Memory) }
    {
        self.rows.generate_row()
    }

    /// Ends the sequence that many bytes after the address that was set last; the next row is as at
    /// the start of a sequence.
    pub fn end_sequence(&mut self, address_offset: u64) -> Result<(), Error>
        requires open { self.old.rows.in_sequence ≡ true }
        requires follows { can_place self.old.rows.rules self.old.rows.previous address_offset
            self.old.rows.row.op_index ≡ true }
        ensures ok { OnOk result (self.new ≡ record self.old {
          rows = record (with_entry (EndSequence address_offset self.old.rows.row.op_index)
              self.old.rows) { row = first_row self.old.rows.rules; in_sequence = false };
        }) }
        ensures err { OnErr result (self.new ≡ self.old) }
        ensures refusal { IfErr result (λ e. e ≡ Memory) }
    {
        self.rows.end_sequence(address_offset)
    }

    // What holds of every program.
    fn is_built(&self)
        ensures { IsBuilt self.now }
    {
        let rules = self.rows.rules();
        let _parameters = byte_parameters(rules.line_encoding);
        let _entries = self.rows.entries();
        are_built(&self.tables);
    }

    // Whether its header records the texts of files.
    fn records_sources(&self) -> bool
        ensures { result ≡ records_source self.now.tables.version self.now.details }
    {
        self.version() > 4 && self.file_has_source
    }

    // Whether the tables have the texts of directories, of paths and, where they are recorded, of
    // files.
    fn knows_texts(&self, strings: &StringTable, line_strings: &LineStringTable) -> bool
        ensures { result ≡ has_texts strings.now line_strings.now self.now.tables
            self.now.details }
    {
        let directories = are_known(strings, line_strings, self.tables.directories());
        let paths = are_paths_known(strings, line_strings, self.tables.files());
        let sources = are_sources_known(strings, line_strings, self.tables.infos());
        let present = self.records_sources();
        directories && paths && (!present || sources)
    }

    /// Whether the tables have the texts that the program has by reference, as `write` requires.
    pub fn has_texts(&self, strings: &StringTable, line_strings: &LineStringTable) -> bool
        ensures { result ≡ true ↔ HasItsTexts strings.now line_strings.now self.now }
    {
        self.knows_texts(strings, line_strings)
    }

    // Whether the version has a header for a program with its number of operations an instruction.
    fn has_version(&self) -> bool
        ensures { result ≡ has_version self.now.rows.rules }
    {
        let version = self.version();
        let operations = self
            .rows
            .rules()
            .line_encoding
            .maximum_operations_per_instruction;
        2 <= version && version <= 5 && (4 <= version || operations <= 1)
    }

    // Whether the texts of directories, of paths and, where they are recorded, of files have one
    // form each.
    fn has_forms(&self) -> bool
        ensures { result ≡ has_forms self.now.tables self.now.details }
    {
        let version = self.version();
        let directories = listed_directories(version, self.tables.directories());
        let directories = have_one_form(version, directories);
        let files = have_paths_of_one_form(version, self.tables.files());
        let sources = have_sources_of_one_form(version, self.tables.infos());
        let present = self.records_sources();
        directories && files && (!present || sources)
    }

    // Whether this is a program that a header can express, with texts that the tables have.
    fn is_writable(&self, strings: &StringTable, line_strings: &LineStringTable) -> bool
        ensures { result ≡ is_writable strings.now line_strings.now self.now }
    {
        let knows_texts = self.knows_texts(strings, line_strings);
        let has_version = self.has_version();
        let has_forms = self.has_forms();
        !self.is_none && knows_texts && has_version && has_forms
    }

    /// Whether `write` gives a unit with these tables, unless memory runs out, a number doesn't fit
    /// its width, or the writer refuses an address: this is a program, of a version from 2 to 5,
    /// before version 4 of one operation an instruction, with texts that the tables have, all in
    /// the header up to version 4, and of one form in each list in version 5.
    pub fn can_write(&self, strings: &StringTable, line_strings: &LineStringTable) -> bool
        ensures { result ≡ true ↔ CanBeWritten strings.now line_strings.now self.now }
    {
        self.is_writable(strings, line_strings)
    }

    /// Writes the unit of the program after what was written, and answers where it begins. Texts by
    /// reference are those of the tables, one of which gains the empty text where a file has no
    /// text and others have one there. Versions other than 2 to 5 are refused (W6), below version 5
    /// texts by reference and below version 4 more than one operation an instruction (W9), in
    /// version 5 texts of two forms in one list (W8). Refused, the writer may have a prefix of the
    /// unit.
    pub fn write<W: Writer>(
        &self,
        alloc: Global,
        w: &mut W,
        strings: &mut StringTable,
        line_strings: &mut LineStringTable,
    ) -> Result<DebugLineOffset, Error>
        requires some { self.now.is_none ≡ false }
        requires known { HasItsTexts strings.old line_strings.old self.now }
        ensures bytes { Continues result (W.contents w.old) (W.contents w.new)
            (program_bytes W.address_of (W.contents w.old).is_big strings.old line_strings.old
            self.now) }
        ensures offset { IfOk result (λ offset. offset.0 ≡ length (W.contents w.old).bytes) }
        ensures reads_back { OnOk result (ReadsBack strings.new line_strings.new self.now
            (W.contents w.old) (W.contents w.new)) }
        ensures expressible { WritesIfExpressible W.address_of (W.contents w.old).is_big self.now
            result }
        ensures tables { OnOk result ((strings.new ≡ strings_with strings.old self.now)
            × (line_strings.new ≡ line_strings_with line_strings.old self.now)) }
        ensures refusal { OnErr result
            (GainsEmpty strings.old strings.new × GainsEmpty line_strings.old line_strings.new) }
    {
        let offset = w.len();
        self.is_built();
        let details = FileDetails {
            has_timestamp: self.file_has_timestamp,
            has_size: self.file_has_size,
            has_md5: self.file_has_md5,
            has_source: self.file_has_source,
        };
        write_unit(
            alloc,
            w,
            &self.rows,
            &self.tables,
            details,
            strings,
            line_strings,
        )?;
        let _strings = strings.count();
        let _line_strings = line_strings.count();
        Ok(DebugLineOffset(offset))
    }
}
