//! What line number programs have as they are built (DWARF 5, 6.2).

ghost use Rattle.std.specs.Prelude.{◌<◌, length};
ghost use Rattle.gimli_lines.specs.StringSections.{IsText};

use crate::answer::Answer;
use crate::case::Case;
use crate::programs::{self, DIRECTORY, HEADER, INCLUDES, SOURCE};
use gimli_lines::write::{Error, LineProgram, LineString};
use std::alloc::Global;

/// Answers a question about a program without files, to which some are added, or about no program.
pub fn answer(alloc: Global, case: &Case, out: &mut Answer) {
    if case.operation.as_str() == "no_program" {
        layout(&LineProgram::none(alloc), out);
        return;
    }
    match programs::program(alloc, case, DIRECTORY, SOURCE, out) {
        Ok(mut program) => {
            layout(&program, out);
            if let Err(error) = add_all(alloc, case, &mut program, out) {
                out.refuse_to_write(error);
            }
        }
        Err(error) => out.refuse_to_write(error),
    }
}

// The layout of a program, as a whole and in parts, and what it has.
fn layout(program: &LineProgram, out: &mut Answer) {
    out.word(&program.encoding());
    out.word(&program.version());
    out.word(&program.address_size());
    out.word(&program.format());
    out.word(&program.default_directory());
    state(program, out);
}

// How many files it has, whether it is none, whether it has rows, and whether a sequence is open.
fn state(program: &LineProgram, out: &mut Answer) {
    out.text("[files ");
    out.value(&program.files().len());
    out.text_if(program.is_none(), ", none");
    out.text_if(program.is_empty(), ", empty");
    out.text_if(program.in_sequence(), ", in a sequence");
    out.text("]");
}

// Adds the working directory and another one, and a file in this one twice. Then a sequence begins.
fn add_all(
    alloc: Global,
    case: &Case,
    program: &mut LineProgram,
    out: &mut Answer,
) -> Result<(), Error> {
    add_directory(alloc, program, DIRECTORY, out)?;
    add_directory(alloc, program, INCLUDES, out)?;
    add_file(alloc, case, program, INCLUDES, HEADER, out)?;
    add_file(alloc, case, program, INCLUDES, HEADER, out)?;
    state(program, out);
    programs::begin(program, None, out)?;
    state(program, out);
    Ok(())
}

// Adds a directory: its number, and its text as it is asked for.
fn add_directory(
    alloc: Global,
    program: &mut LineProgram,
    text: &[u8],
    out: &mut Answer,
) -> Result<(), Error>
    requires text { IsText text.now }
    requires not_empty { 0 < length text.now }
{
    let directory = LineString::String(Vec::from_slice(alloc, text)?);
    let id = program.add_directory(directory)?;
    out.text("[");
    out.word(&id);
    out.code(program.get_directory(id));
    out.text("]");
    Ok(())
}

// Adds a file: its number in rows, its path and directory, and its size before and after it is set.
fn add_file(
    alloc: Global,
    case: &Case,
    program: &mut LineProgram,
    directory: &[u8],
    path: &[u8],
    out: &mut Answer,
) -> Result<(), Error>
    requires directory { IsText directory.now }
    requires named { 0 < length directory.now }
    requires path { IsText path.now }
    requires not_empty { 0 < length path.now }
{
    let directory = LineString::String(Vec::from_slice(alloc, directory)?);
    let path = LineString::String(Vec::from_slice(alloc, path)?);
    let directory = program.add_directory(directory)?;
    let id = program.add_file(path, directory, None)?;
    out.text("[");
    out.word(&id.raw(program.version()));
    out.word(&program.get_file(id));
    out.word(&program.get_file_info(id).size);
    program.get_file_info_mut(id).size = case.base;
    out.code(&program.get_file_info(id).size);
    out.text("]");
    Ok(())
}
