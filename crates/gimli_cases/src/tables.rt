//! Tables of strings as they are built, and the texts of headers (DWARF 5, 7.26 and 6.2.4.1).

ghost use Rattle.std.specs.Prelude.{◌↔◌, IsTrue};
ghost use Rattle.gimli_lines.specs.StringSections.{IsText};

use crate::answer::Answer;
use crate::case::Case;
use gimli_lines::write::{EndianVec, LineString, LineStringTable, StringTable, Writer};
use std::alloc::Global;

/// Answers a question about texts, one a section: the tables of both sections of strings with all
/// of them, or the first as the headers of the version have it.
pub fn answer(alloc: Global, case: &Case, out: &mut Answer) {
    let mut strings = StringTable::new(alloc);
    let mut line_strings = LineStringTable::new(alloc);
    for section in case.sections.iter() {
        let text = section.as_slice();
        if is_text(text) {
            match case.operation.as_str() {
                "string_tables" => add(alloc, &mut strings, &mut line_strings, text, out),
                _ => header_text(alloc, case, &strings, &mut line_strings, text, out),
            }
        }
    }
    write(alloc, case, &strings, &line_strings, out);
}

// Whether bytes are a text.
fn is_text(bytes: &[u8]) -> bool
    ensures { IsTrue result ↔ IsText bytes.now }
{
    bytes.iter().all(|&byte| byte != 0)
}

// Adds a text to both tables: it, and where it begins.
fn add(
    alloc: Global,
    strings: &mut StringTable,
    line_strings: &mut LineStringTable,
    text: &[u8],
    out: &mut Answer,
)
    requires { IsText text.now }
{
    match strings.add(alloc, text) {
        Ok(id) if id.0 < strings.count() => {
            out.word(&strings.offset(id));
            out.digits_or_none(strings.get(id));
        }
        Ok(_) => out.text("no such string"),
        Err(error) => out.refuse_to_write(error),
    }
    out.text(" ");
    match line_strings.add(alloc, text) {
        Ok(id) if id.0 < line_strings.count() => {
            out.word(&line_strings.offset(id));
            out.digits_or_none(line_strings.get(id));
        }
        Ok(_) => out.text("no such string"),
        Err(error) => out.refuse_to_write(error),
    }
    out.text(", ");
}

// A text as a header has it, and whether it is in the header itself.
fn header_text(
    alloc: Global,
    case: &Case,
    strings: &StringTable,
    line_strings: &mut LineStringTable,
    text: &[u8],
    out: &mut Answer,
)
    requires { IsText text.now }
{
    match LineString::new(alloc, text, case.encoding(), line_strings) {
        Ok(text) => match &text {
            LineString::String(_) => {
                out.digits(text.get(strings, line_strings));
                out.text(" in the header, ");
            }
            LineString::LineStringRef(id) if id.0 < line_strings.count() => {
                out.digits(text.get(strings, line_strings));
                out.text(", ");
            }
            _ => out.text("no such string"),
        },
        Err(error) => out.refuse_to_write(error),
    }
}

// The sections of both tables, each with its number of texts, and their order of bytes.
fn write(
    alloc: Global,
    case: &Case,
    strings: &StringTable,
    line_strings: &LineStringTable,
    out: &mut Answer,
) {
    let mut w = EndianVec::new(alloc, case.order());
    out.word(&strings.count());
    match strings.write(&mut w) {
        Ok(()) => out.digits_or_none(&w.take(alloc)),
        Err(error) => out.refuse_to_write(error),
    }
    out.text(" ");
    out.word(&line_strings.count());
    match line_strings.write(&mut w) {
        Ok(()) => out.digits_or_none(w.slice()),
        Err(error) => out.refuse_to_write(error),
    }
    out.text(" ");
    out.code(&w.endian());
}
