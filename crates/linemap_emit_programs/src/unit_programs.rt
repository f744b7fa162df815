//! The line number program of a table's unit, with its directories and files.

ghost use Rattle.std.specs.Prelude.{◌≡◌, ◌<◌, [], length, map, false, IsOk, OnOk, IfOk, IfErr};
ghost use Rattle.linemap_emit_rows.specs.WriteError.TheVariants.{Memory};
ghost use Rattle.linemap_emit_rows.specs.NumberBytes.{constant_of};
ghost use Rattle.linemap_emit_rows.specs.RowPieces.{IsBuildable};
ghost use Rattle.gimli_lines_write_laws.specs.FileTables.{text_of, HasNoZero, HasBytes};
ghost use Rattle.gimli_lines_write_laws.specs.LineStrings.{table_after};
ghost use Rattle.gimli_lines_write_program.specs.BuiltPrograms.{no_details, program_bytes, HasItsTexts};
ghost use Rattle.linemap_emit_rows.specs.TableViews.{file_part, unit_part};
ghost use Rattle.linemap_emit_rows.specs.WriteResults.{Appends};
ghost use Rattle.linemap_emit_rows.specs.EmittedRows.{AllOrdered, emitted_rules};
ghost use Rattle.linemap_emit_programs.specs.EmittedFiles.{IsTableText, text_in, directory_number, with_directory_text, named_place, with_named_file, table_file_place, with_table_file, table_file_ids, with_table_files, AllTableTexts, HasTableTexts, first_unit_files, unit_files, unit_file_ids, place_in};
ghost use Rattle.linemap_emit_programs.specs.EmittedPrograms.{bytes_if_any, first_program, line_program};
ghost use Rattle.linemap_emit_programs.specs.ProgramFilesSoFar.{files_of, with_files, HasOneVersion};

use crate::sequences::push_sequences;
use gimli_lines_write_laws::{Encoding, LineEncoding};
use gimli_lines_write_program::{
    DirectoryId, EndianVec, Error, FileId, LineProgram, LineString, LineStringTable, StringTable,
};
use linemap_emit_rows::{RunTimeEndian, TableFile, TableUnit};
use std::alloc::Global;

/// The line number program of a unit, and the ids of the unit's files in it.
pub struct UnitProgram {
    pub program: LineProgram,
    pub files: Vec<FileId>,
}

impl Drop for UnitProgram {
    fn drop(self) {
        let UnitProgram {
            program: _,
            files: _,
        } = self;
    }
}

// A text as the headers of a version have it.
#[tactic(auto, using(crate::proofs::HeaderTextLemmas::header_texts))]
fn header_text(
    alloc: Global,
    encoding: Encoding,
    line_strings: &mut LineStringTable,
    text: &str,
) -> Result<LineString, Error>
    requires { IsTableText text.now }
    ensures text { IfOk result
        (λ t. text_of t ≡ text_in encoding.version line_strings.old text.now) }
    ensures zero_free { IfOk result (λ t. HasNoZero (text_of t)) }
    ensures filled { IfOk result (λ t. HasBytes (text_of t)) }
    ensures table { OnOk result
        (line_strings.new ≡ table_after encoding.version text.now line_strings.old) }
    ensures refusal { IfErr result (λ e. e ≡ Memory) }
{
    LineString::new(alloc, text.as_bytes(), encoding, line_strings)
}

// Adds a directory, where it isn't there yet.
fn add_directory(
    alloc: Global,
    program: &mut LineProgram,
    line_strings: &mut LineStringTable,
    directory: &str,
) -> Result<DirectoryId, Error>
    requires version { HasOneVersion program.old }
    requires text { IsTableText directory.now }
    ensures program { OnOk result (program.new ≡ with_files
        (with_directory_text directory.now (files_of program.old line_strings.old))
        program.old) }
    ensures texts { OnOk result (line_strings.new
        ≡ (with_directory_text directory.now
        (files_of program.old line_strings.old)).line_texts) }
    ensures number { IfOk result (λ id. id.0
        ≡ directory_number directory.now (files_of program.old line_strings.old)) }
    ensures within { IfOk result (λ id. id.0 < length program.new.tables.directories) }
    ensures refusal { IfErr result (λ e. e ≡ Memory) }
{
    let text = header_text(alloc, program.encoding(), line_strings, directory)?;
    program.add_directory(text)
}

// Adds a file in a directory, where it isn't there yet.
fn add_name(
    alloc: Global,
    program: &mut LineProgram,
    line_strings: &mut LineStringTable,
    directory: DirectoryId,
    name: &str,
) -> Result<FileId, Error>
    requires version { HasOneVersion program.old }
    requires text { IsTableText name.now }
    requires directory { directory.0 < length program.old.tables.directories }
    ensures program { OnOk result (program.new ≡ with_files
        (with_named_file directory.0 name.now (files_of program.old line_strings.old))
        program.old) }
    ensures texts { OnOk result (line_strings.new
        ≡ (with_named_file directory.0 name.now
        (files_of program.old line_strings.old)).line_texts) }
    ensures place { IfOk result (λ id. id.0
        ≡ named_place directory.0 name.now (files_of program.old line_strings.old)) }
    ensures refusal { IfErr result (λ e. e ≡ Memory) }
{
    let text = header_text(alloc, program.encoding(), line_strings, name)?;
    program.add_file(text, directory, None)
}

// Adds a file of a table.
fn add_file(
    alloc: Global,
    program: &mut LineProgram,
    line_strings: &mut LineStringTable,
    file: &TableFile,
) -> Result<FileId, Error>
    requires version { HasOneVersion program.old }
    requires directory { IsTableText (file_part file.now).directory }
    requires name { IsTableText (file_part file.now).name }
    ensures program { OnOk result (program.new ≡ with_files
        (with_table_file (file_part file.now) (files_of program.old line_strings.old))
        program.old) }
    ensures texts { OnOk result (line_strings.new
        ≡ (with_table_file (file_part file.now)
        (files_of program.old line_strings.old)).line_texts) }
    ensures id { IfOk result (λ id. id.0
        ≡ table_file_place (file_part file.now) (files_of program.old line_strings.old)) }
    ensures refusal { IfErr result (λ e. e ≡ Memory) }
{
    let directory = add_directory(alloc, program, line_strings, &file.directory)?;
    let id = add_name(alloc, program, line_strings, directory, &file.name)?;
    Ok(id)
}

// Adds the files of a table.
#[tactic(auto, unfolding(crate::specs::EmittedFiles::AllTableTexts, crate::specs::EmittedFiles::with_table_files, crate::specs::EmittedFiles::table_file_ids))]
fn add_files(
    alloc: Global,
    program: &mut LineProgram,
    line_strings: &mut LineStringTable,
    files: &[TableFile],
) -> Result<Vec<FileId>, Error>
    requires version { HasOneVersion program.old }
    requires texts { AllTableTexts (map file_part files.now) }
    ensures program { OnOk result (program.new ≡ with_files
        (with_table_files (map file_part files.now) (files_of program.old line_strings.old))
        program.old) }
    ensures texts { OnOk result (line_strings.new
        ≡ (with_table_files (map file_part files.now)
        (files_of program.old line_strings.old)).line_texts) }
    ensures ids { IfOk result (λ ids. ids.items
        ≡ table_file_ids (map file_part files.now) (files_of program.old line_strings.old)) }
    ensures refusal { IfErr result (λ e. e ≡ Memory) }
{
    let mut ids = Vec::new(alloc);
    for file in files {
        let id = add_file(alloc, program, line_strings, file)?;
        ids.push(id)?;
    }
    Ok(ids)
}

// A program of a unit without files and rows.
fn new_program(
    alloc: Global,
    encoding: Encoding,
    line_strings: &mut LineStringTable,
    unit: &TableUnit,
) -> Result<LineProgram, Error>
    requires buildable { IsBuildable (emitted_rules encoding) }
    requires directory { IsTableText (unit_part unit.now).directory }
    requires name { IsTableText (unit_part unit.now).name }
    ensures program { IfOk result (λ p. p
        ≡ first_program encoding (unit_part unit.now) line_strings.old) }
    ensures texts { OnOk result (line_strings.new
        ≡ (first_unit_files encoding (unit_part unit.now) line_strings.old).line_texts) }
    ensures refusal { IfErr result (λ e. e ≡ Memory) }
{
    let directory = header_text(alloc, encoding, line_strings, &unit.directory)?;
    let name = header_text(alloc, encoding, line_strings, &unit.name)?;
    LineProgram::new(alloc, encoding, LineEncoding::default(), directory, name)
}

/// The line number program of a unit. In version 5 its texts are added to `.debug_line_str`.
/// Refused only when out of memory.
#[tactic(auto, using(crate::proofs::BuiltUnits::ids_counted))]
pub fn unit_program(
    alloc: Global,
    encoding: Encoding,
    line_strings: &mut LineStringTable,
    unit: &TableUnit,
) -> Result<UnitProgram, Error>
    requires buildable { IsBuildable (emitted_rules encoding) }
    requires texts { HasTableTexts (unit_part unit.now) }
    requires ordered { AllOrdered (emitted_rules encoding)
        (place_in (unit_file_ids encoding (unit_part unit.now) line_strings.old))
        (length (unit_part unit.now).files) (unit_part unit.now).sequences }
    ensures program { IfOk result (λ p. p.program
        ≡ line_program encoding (unit_part unit.now) line_strings.old) }
    ensures files { IfOk result (λ p. p.files.items
        ≡ unit_file_ids encoding (unit_part unit.now) line_strings.old) }
    ensures texts { OnOk result (line_strings.new
        ≡ (unit_files encoding (unit_part unit.now) line_strings.old).line_texts) }
    ensures refusal { IfErr result (λ e. e ≡ Memory) }
{
    let mut program = new_program(alloc, encoding, line_strings, unit)?;
    let files = add_files(alloc, &mut program, line_strings, &unit.files)?;
    push_sequences(&mut program, &files, &unit.sequences)?;
    Ok(UnitProgram { program, files })
}

/// Writes a program whose bytes aren't refused, with texts of `.debug_line_str` alone. Refused only
/// when out of memory.
#[tactic(auto, using(crate::proofs::BuiltUnits::texts_stay))]
pub fn write_program(
    alloc: Global,
    w: &mut EndianVec<RunTimeEndian>,
    program: &LineProgram,
    line_strings: &mut LineStringTable,
) -> Result<(), Error>
    requires some { program.now.is_none ≡ false }
    requires plain { program.now.details ≡ no_details }
    requires known { HasItsTexts [] line_strings.old program.now }
    requires spelled { IsOk (program_bytes constant_of w.old.is_big [] line_strings.old
        program.now) }
    ensures bytes { Appends result w.old w.new (bytes_if_any
        (program_bytes constant_of w.old.is_big [] line_strings.old program.now)) }
    ensures texts { OnOk result (line_strings.new ≡ line_strings.old) }
{
    let mut strings = StringTable::new(alloc);
    program.write(alloc, w, &mut strings, line_strings)?;
    Ok(())
}
