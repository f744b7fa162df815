//! The texts of what calls return.

ghost use Rattle.std.specs.Prelude.{◌≡◌, ◌≢◌, Some, map, option_map};
ghost use Rattle.addr2line_c.specs.Numbers.{some_number};
ghost use Rattle.addr2line_c.specs.RefusalTexts.{both, code_of, code_text, or_else, sentence_of, sentence_text, text_from, texts_of};

use crate::c_types::A2lText;
use crate::numbers::{NOT_FOUND, OK};

// Those of numbers from 1 on.
const CALL_CODES: [&str; 8] = ["C1", "C2", "C3", "C4", "C5", "C6", "C7", "C8"];

// Those from 101 on.
const ERROR_CODES: [&str; 33] = [
    "E1", "E2", "E3", "E4", "E5", "E6", "E7", "E8", "E9", "E10", "E11", "E12", "E13", "E14", "E15",
    "E16", "E17", "E18", "E19", "E20", "E21", "E22", "E23", "E24", "E25", "E26", "E27", "E28",
    "E29", "E30", "E31", "E32", "E33",
];

// Those from 201 on.
const LOAD_CODES: [&str; 7] = ["L1", "L2", "L3", "L4", "L5", "L6", "L7"];

// Those from 302 on.
const DWARF_CODES: [&str; 32] = [
    "L8 E2", "L8 E3", "L8 E4", "L8 E5", "L8 E6", "L8 E7", "L8 E8", "L8 E9", "L8 E10", "L8 E11",
    "L8 E12", "L8 E13", "L8 E14", "L8 E15", "L8 E16", "L8 E17", "L8 E18", "L8 E19", "L8 E20",
    "L8 E21", "L8 E22", "L8 E23", "L8 E24", "L8 E25", "L8 E26", "L8 E27", "L8 E28", "L8 E29",
    "L8 E30", "L8 E31", "L8 E32", "L8 E33",
];

// Those from 401 on.
const DECOMPRESS_CODES: [&str; 12] = [
    "Z1", "Z2", "Z3", "Z4", "Z5", "Z6", "Z7", "Z8", "Z9", "Z10", "Z11", "Z12",
];

// What those from 1 on mean.
const CALL_SENTENCES: [&str; 8] = [
    "there is no such location, symbol or section",
    "the number is past the last, or no stretch is left",
    "there is no room for results",
    "the loader is closed",
    "the loader is neither open nor closed",
    "the loader is already open",
    "the bytes are not the split file of this unit",
    "there is no such flag",
];

// What those from 101 on mean. Those from 302 on mean what those from 102 on do.
const ERROR_SENTENCES: [&str; 33] = [
    "out of memory",
    "the bytes end before a value does",
    "an unsigned LEB128 number is too long or too large",
    "a signed LEB128 number is too long or too large",
    "a length is one of those that the standard reserves",
    "an offset is larger than the reader's offsets can be",
    "the size of an address is not 1, 2, 4 or 8",
    "an abbreviation has the tag 0",
    "an attribute has the name 0 and a form",
    "an attribute has a name and the form 0",
    "a children byte is neither 0 nor 1",
    "an abbreviation code occurs twice in its table",
    "an entry has a code that its unit's abbreviation table lacks",
    "a form can't be read",
    "an implicit constant is reached through an indirect form",
    "a version is not one of those that are read",
    "a unit has a type that the standard does not number",
    "the size of a segment selector is not 0",
    "an offset is outside the entries of its unit",
    "an offset is not that of an entry",
    "a unit has no root entry",
    "an address is too large for the address size",
    "a range list has an entry that the standard does not number",
    "a location list has an entry that the standard does not number",
    "the minimum instruction length of a line program is 0",
    "the operations per instruction of a line program are 0",
    "the line range of a line program is 0",
    "the opcode base of a line program is 0",
    "a directory or file format does not have exactly one path",
    "the value of an attribute is not a text",
    "a text is not UTF-8",
    "a sum of offsets does not fit 64 bits",
    "there is no unit of this number",
];

// What those from 201 on mean.
const LOAD_SENTENCES: [&str; 7] = [
    "out of memory",
    "the file can't be read",
    "the bytes do not begin as those of an ELF file do",
    "the class, the byte order or the header size of the ELF file is not supported",
    "the file ends before a header, a section or a table does",
    "a section of debugging information is compressed",
    "a linker has yet to fill in the addresses of a section of debugging information",
];

// What those from 401 on mean.
const DECOMPRESS_SENTENCES: [&str; 12] = [
    "the section headers overlap the file's header",
    "a section overlaps the section headers",
    "the file ends before a section does",
    "a section holds names and is compressed",
    "a section ends in its compression header",
    "a section is compressed by zstd; run objcopy --decompress-debug-sections on the file first",
    "a section has an unknown compression type",
    "a section is too small for the size that it claims",
    "a section has an invalid stream",
    "the decompressed image is too large for its ELF class",
    "a section holds more than the names of sections, which change",
    "the name of a section doesn't end",
];

// The text of a number, among those of the numbers from one on.
fn text_from(first: u32, texts: &[&'static str], number: u32) -> Option<&'static str>
    ensures { option_map (λ t. t.now) result
        ≡ text_from first (map (λ t. t.now) texts.now) number }
{
    if number < first {
        return None;
    }
    match texts.get((number - first) as usize) {
        Some(text) => Some(*text),
        None => None,
    }
}

// A text, or another one.
fn or_else(text: Option<&'static str>, other: Option<&'static str>) -> Option<&'static str>
    ensures { option_map (λ t. t.now) result
        ≡ or_else (option_map (λ t. t.now) text.entry) (option_map (λ t. t.now) other.entry) }
{
    match text {
        Some(text) => Some(text),
        None => other,
    }
}

// The letter and the number of what a call returned.
fn code_text(number: u32) -> Option<&'static str>
    ensures { option_map (λ t. t.now) result ≡ code_text number }
{
    let of_calls = text_from(1, &CALL_CODES, number);
    let of_errors = text_from(101, &ERROR_CODES, number);
    let of_files = text_from(201, &LOAD_CODES, number);
    let of_dwarf = text_from(302, &DWARF_CODES, number);
    let of_sections = text_from(401, &DECOMPRESS_CODES, number);
    let of_loading = or_else(of_files, or_else(of_dwarf, of_sections));
    or_else(of_calls, or_else(of_errors, of_loading))
}

// What it means.
fn sentence_text(number: u32) -> Option<&'static str>
    ensures { option_map (λ t. t.now) result ≡ sentence_text number }
{
    let of_calls = text_from(1, &CALL_SENTENCES, number);
    let of_errors = text_from(101, &ERROR_SENTENCES, number);
    let of_files = text_from(201, &LOAD_SENTENCES, number);
    let of_dwarf = text_from(302, &ERROR_SENTENCES[1..], number);
    let of_sections = text_from(401, &DECOMPRESS_SENTENCES, number);
    let of_loading = or_else(of_files, or_else(of_dwarf, of_sections));
    or_else(of_calls, or_else(of_errors, of_loading))
}

// Writes a text, if there is one.
fn write_text(text: Option<&'static str>, out: &mut A2lText<'static>) -> i32
    ensures number { result ≡ some_number (option_map (λ t. t.now) text.entry) NOT_FOUND }
    ensures text { result ≡ OK → option_map (λ t. t.now) text.entry ≡ Some out.new.text.now }
    ensures same { result ≢ OK → out.new ≡ out.old }
{
    match text {
        Some(text) => {
            out.text = text.as_bytes();
            OK
        }
        None => NOT_FOUND,
    }
}

// Writes two texts, if there are both.
fn write_texts(
    of_code: Option<&'static str>,
    of_sentence: Option<&'static str>,
    code: &mut A2lText<'static>,
    sentence: &mut A2lText<'static>,
) -> i32
    ensures number { result ≡ some_number (both (option_map (λ t. t.now) of_code.entry)
        (option_map (λ t. t.now) of_sentence.entry)) NOT_FOUND }
    ensures texts { result ≡ OK
        → both (option_map (λ t. t.now) of_code.entry) (option_map (λ t. t.now) of_sentence.entry)
        ≡ Some (code.new.text.now, sentence.new.text.now) }
    ensures same { result ≢ OK → (code.new ≡ code.old) × (sentence.new ≡ sentence.old) }
{
    let Some(of_code) = of_code else {
        return NOT_FOUND;
    };
    let Some(of_sentence) = of_sentence else {
        return NOT_FOUND;
    };
    code.text = of_code.as_bytes();
    sentence.text = of_sentence.as_bytes();
    OK
}

/// The letter and the number of what a call returned, and a sentence that says what it means.
#[unsafe(no_mangle)]
pub extern "C" fn a2l_error_text(
    number: i32,
    code: &mut A2lText<'static>,
    sentence: &mut A2lText<'static>,
) -> i32
    ensures number { result ≡ some_number (texts_of number) NOT_FOUND }
    ensures texts { result ≡ OK
        → texts_of number ≡ Some (code.new.text.now, sentence.new.text.now) }
    ensures same { result ≢ OK → (code.new ≡ code.old) × (sentence.new ≡ sentence.old) }
{
    match u32::try_from(number) {
        Ok(number) => write_texts(code_text(number), sentence_text(number), code, sentence),
        Err(_) => NOT_FOUND,
    }
}

/// The letter and the number alone.
#[unsafe(no_mangle)]
pub extern "C" fn a2l_error_code(number: i32, out: &mut A2lText<'static>) -> i32
    ensures number { result ≡ some_number (code_of number) NOT_FOUND }
    ensures text { result ≡ OK → code_of number ≡ Some out.new.text.now }
    ensures same { result ≢ OK → out.new ≡ out.old }
{
    match u32::try_from(number) {
        Ok(number) => write_text(code_text(number), out),
        Err(_) => NOT_FOUND,
    }
}

/// The sentence alone.
#[unsafe(no_mangle)]
pub extern "C" fn a2l_error_sentence(number: i32, out: &mut A2lText<'static>) -> i32
    ensures number { result ≡ some_number (sentence_of number) NOT_FOUND }
    ensures text { result ≡ OK → sentence_of number ≡ Some out.new.text.now }
    ensures same { result ≢ OK → out.new ≡ out.old }
{
    match u32::try_from(number) {
        Ok(number) => write_text(sentence_text(number), out),
        Err(_) => NOT_FOUND,
    }
}
