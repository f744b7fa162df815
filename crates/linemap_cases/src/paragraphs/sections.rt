//! What is asked of the sections of a file, and of one of its units, by the words of a line:
//!
//! - `text OFFSET`: the text there in `.debug_str`, the kind of the file, and its supplement.
//! - `refuse SECTION`: how many sections are asked for if this one is refused, and the refusal.
//! - `cached CODE`: whether a table with this code is kept for all units that share it.
//! - `path DIRECTORY DIRECTORY NAME`: the text of a file, from its unit's directory on.
//! - `root UNIT`: its name, its directory, where it begins, and how many attributes its root has.
//! - `program UNIT`: the offset and the version of its line program, and its directory 0.
//! - `split UNIT`: its identifier, where its range lists begin, and its split file.
//! - `address UNIT INDEX`: an address, by itself and as an attribute's value.
//! - `list UNIT INDEX`: the offset of a range list.
//! - `ranges_at UNIT OFFSET`: the offset of a range list in its section, and up to three ranges.
//! - `entry UNIT OFFSET`: how many attributes the entry there has, and whether bytes follow it.
//! - `string UNIT`, and with a number also `strp`, `strp_sup`, `line_strp`, `strx` and `udata`: the
//!   text that a value of this form stands for.
//!
//! A unit is named by its number in the file. With `skeleton NAME NUMBER` the file is a split one,
//! and each of its units has the unit of this number in the main file NAME as its skeleton.

use super::case::Case;
use super::contexts::{dwarf_of, supplement_in};
use super::data::number_of;
use super::files::{Borrowed, File, Sections, borrow_sections, borrowed_files, section_of};
use super::question::Question;
use crate::answer::Answer;
use addr2line_context::{
    AbbreviationsCacheStrategy, AttributeValue, DebugAbbrev, DebugAbbrevOffset, DebugAddrIndex,
    DebugLineStrOffset, DebugRngListsIndex, DebugStrOffset, DebugStrOffsetsIndex, Dwarf,
    EndianSlice, Error, LittleEndian, RangeListsOffset, RawRangeListsOffset, SectionId, Unit,
    UnitOffset, UnitRef, file_text,
};
use std::alloc::Global;

type Slices<'a> = Dwarf<Borrowed<'a>>;

// The words of a line: the first, and the two numbers after it.
#[derive(Clone, Copy)]
struct Words<'a> {
    word: &'a str,
    first: usize,
    second: usize,
}

/// Adds the answers to what is asked of the sections of a file, and an empty line.
pub fn answer(alloc: Global, files: &[File], case: &Case, out: &mut Answer) {
    match borrowed_files(alloc, files) {
        Ok(named) => answer_lines(&named, case, out),
        Err(_) => out.refuse_memory(),
    }
    out.text("\n");
}

// Where memory was refused for an answer, it is asked for again.
fn answer_lines(named: &[Sections<Borrowed<'_>>], case: &Case, out: &mut Answer) {
    for asked in case.asked.iter() {
        out.text(&asked.line);
        if !matches!(asked.question, Question::Heading) {
            out.text(": ");
            let mut first = Answer::new(out.alloc);
            ask(named, case, &asked.line, &mut first);
            if !out.add_first(first) {
                ask(named, case, &asked.line, out);
            }
        }
        out.text("\n");
    }
}

fn ask(named: &[Sections<Borrowed<'_>>], case: &Case, line: &str, out: &mut Answer) {
    let (word, rest) = line.split_once(' ').unwrap_or((line, ""));
    match word {
        "refuse" => refuse(rest, out),
        "path" => path(rest, out),
        _ => ask_file(named, case, &words_of(word, rest), out),
    }
}

// A number that isn't there is 0, and a word that is none is one that no unit and no offset has.
fn words_of<'a>(word: &'a str, rest: &str) -> Words<'a> {
    let (first, second) = rest.split_once(' ').unwrap_or((rest, "0"));
    Words {
        word,
        first: place_of(first),
        second: place_of(second),
    }
}

fn place_of(word: &str) -> usize {
    match number_of(word) {
        Ok(number) => usize::try_from(number).unwrap_or(usize::MAX),
        Err(_) => usize::MAX,
    }
}

fn ask_file<'a>(
    named: &'a [Sections<Borrowed<'a>>],
    case: &'a Case,
    words: &Words<'_>,
    out: &mut Answer,
) {
    match file_of(out.alloc, named, case) {
        Ok(mut dwarf) => match words.word {
            "text" => text(&dwarf, words.first, out),
            "cached" => cached(&mut dwarf, words.first, out),
            _ => match unit_of(out.alloc, &mut dwarf, words.first, case, named) {
                Ok(unit) => ask_unit(&UnitRef::new(&dwarf, &unit), words, out),
                Err(error) => out.refuse_named(error),
            },
        },
        Err(error) => out.refuse_named(error),
    }
}

fn file_of<'a>(
    alloc: Global,
    named: &'a [Sections<Borrowed<'a>>],
    case: &'a Case,
) -> Result<Slices<'a>, Error> {
    match borrow_sections(alloc, &case.file) {
        Ok(sections) => dwarf_of(alloc, &sections, supplement_in(case, named)),
        Err(_) => Err(Error::Memory),
    }
}

fn unit_of<'a>(
    alloc: Global,
    dwarf: &mut Slices<'a>,
    number: usize,
    case: &Case,
    named: &'a [Sections<Borrowed<'a>>],
) -> Result<Unit<Borrowed<'a>>, Error> {
    let Some((main, skeleton)) = case.skeleton else {
        return unit_at(alloc, dwarf, number);
    };
    match named.get(main) {
        Some(main) => split_unit(alloc, dwarf, number, main, skeleton),
        None => Err(Error::NoSuchUnit),
    }
}

// The unit of a number in a file that is made a split one.
fn split_unit<'a>(
    alloc: Global,
    dwarf: &mut Slices<'a>,
    number: usize,
    main: &Sections<Borrowed<'a>>,
    skeleton: usize,
) -> Result<Unit<Borrowed<'a>>, Error> {
    let main = main.load(alloc)?;
    dwarf.make_dwo(&main)?;
    let skeleton = unit_at(alloc, &main, skeleton)?;
    let mut unit = unit_at(alloc, dwarf, number)?;
    unit.copy_relocated_attributes(&skeleton);
    Ok(unit)
}

fn unit_at<'a>(
    alloc: Global,
    dwarf: &Slices<'a>,
    number: usize,
) -> Result<Unit<Borrowed<'a>>, Error> {
    let mut units = dwarf.units()?;
    for _ in 0..number {
        if units.next()?.is_none() {
            return Err(Error::NoSuchUnit);
        }
    }
    match units.next() {
        Ok(Some(header)) => dwarf.unit(alloc, header),
        Ok(None) => Err(Error::NoSuchUnit),
        Err(error) => Err(error),
    }
}

// ---- files

fn text(dwarf: &Slices<'_>, offset: usize, out: &mut Answer) {
    match dwarf.string(DebugStrOffset(offset)) {
        Ok(text) => out.lossy(&text),
        Err(error) => out.refuse_named(error),
    }
    out.text(", ");
    out.code(&dwarf.file_type);
    match dwarf.sup() {
        Some(_) => out.text(", with a supplement"),
        None => out.text(", without a supplement"),
    }
}

fn refuse(section: &str, out: &mut Answer) {
    let Some(refused) = section_of(section) else {
        return out.text("no section");
    };
    let (count, refusal) = asked_before(out.alloc, refused);
    out.value(&count);
    out.text(", ");
    match refusal {
        Some(error) => out.refuse_named(error),
        None => out.text("loaded"),
    }
}

fn asked_before(alloc: Global, refused: SectionId) -> (usize, Option<Error>) {
    let mut count = 0usize;
    let dwarf: Result<Slices<'static>, Error> = Dwarf::load(alloc, |id| {
        count = count.wrapping_add(1);
        if id == refused {
            Err(Error::UnsupportedSegmentSize)
        } else {
            Ok(EndianSlice::new(&[], LittleEndian))
        }
    });
    (count, dwarf.err())
}

fn cached(dwarf: &mut Slices<'_>, code: usize, out: &mut Answer) {
    match dwarf.populate_abbreviations_cache(out.alloc, AbbreviationsCacheStrategy::Duplicates) {
        Ok(()) => has_code(dwarf, code, out),
        Err(error) => out.refuse_named(error),
    }
}

// Whether the cache has a table of offset 0 with this code. It is asked for an empty section, so a
// table that it doesn't keep has no code.
fn has_code(dwarf: &Slices<'_>, code: usize, out: &mut Answer) {
    let other = DebugAbbrev::new(&[], LittleEndian);
    let cache = &dwarf.abbreviations_cache;
    match cache.get(out.alloc, &other, DebugAbbrevOffset(0)) {
        Ok(table) => out.value(&table.get(code as u64).is_some()),
        Err(error) => out.refuse_named(error),
    }
}

fn path(words: &str, out: &mut Answer) {
    let mut words = words.split_whitespace();
    let (unit_directory, directory) = (words.next(), words.next());
    match file_text(
        out.alloc,
        unit_directory,
        directory,
        words.next().unwrap_or(""),
    ) {
        Ok(text) => out.text(&text),
        Err(_) => out.refuse_memory(),
    }
}

// ---- units

fn ask_unit(unit: &UnitRef<'_, Borrowed<'_>>, words: &Words<'_>, out: &mut Answer) {
    match words.word {
        "root" => root(unit, out),
        "program" => program(unit, out),
        "split" => split(unit, out),
        "address" => address(unit, words.second, out),
        "list" => list(unit, words.second, out),
        "ranges_at" => ranges(unit, words.second, out),
        "entry" => entry(unit, words.second, out),
        form => match value_of(form, words.second) {
            Some(value) => value_text(unit, value, out),
            None => out.text("no such form"),
        },
    }
}

fn root(unit: &UnitRef<'_, Borrowed<'_>>, out: &mut Answer) {
    let fields = unit.unit;
    out.lossy_if_any(&fields.name);
    out.text(" in ");
    out.lossy_if_any(&fields.comp_dir);
    out.text(" from ");
    out.hex(fields.low_pc);
    out.text(", attributes: ");
    match unit.root(out.alloc) {
        Ok(root) => out.value(&root.attrs().len()),
        Err(error) => out.refuse_named(error),
    }
}

fn program(unit: &UnitRef<'_, Borrowed<'_>>, out: &mut Answer) {
    let fields = unit.unit;
    let Some(program) = &fields.line_program else {
        return out.text("none");
    };
    out.text("at ");
    out.value(&program.offset().0);
    out.text(", version ");
    out.value(&program.version());
    out.text(", directory ");
    match program.directory(0) {
        Some(AttributeValue::String(text)) => out.lossy(text),
        _ => out.text("-"),
    }
}

fn split(unit: &UnitRef<'_, Borrowed<'_>>, out: &mut Answer) {
    let fields = unit.unit;
    match fields.dwo_id {
        Some(id) => out.hex(id.0),
        None => out.text("-"),
    }
    out.text(", range lists at ");
    out.value(&fields.rnglists_base.0);
    out.text(", ");
    match fields.dwo_name(out.alloc) {
        Ok(Some(name)) => value_text(unit, name, out),
        Ok(None) => out.text("-"),
        Err(error) => out.refuse_named(error),
    }
}

fn address(unit: &UnitRef<'_, Borrowed<'_>>, index: usize, out: &mut Answer) {
    match unit.address(DebugAddrIndex(index)) {
        Ok(address) => out.hex(address),
        Err(error) => out.refuse_named(error),
    }
    out.text(", ");
    let value = AttributeValue::DebugAddrIndex(DebugAddrIndex(index));
    match unit.dwarf.attr_address(unit.unit, value) {
        Ok(Some(address)) => out.hex(address),
        Ok(None) => out.text("-"),
        Err(error) => out.refuse_named(error),
    }
}

fn list(unit: &UnitRef<'_, Borrowed<'_>>, index: usize, out: &mut Answer) {
    match unit
        .dwarf
        .ranges_offset(unit.unit, DebugRngListsIndex(index))
    {
        Ok(offset) => out.hex(offset.0 as u64),
        Err(error) => out.refuse_named(error),
    }
}

fn ranges(unit: &UnitRef<'_, Borrowed<'_>>, offset: usize, out: &mut Answer) {
    let list = AttributeValue::RangeListsRef(RawRangeListsOffset(offset));
    match unit.attr_ranges_offset(list) {
        Ok(Some(offset)) => ranges_at(unit, offset, out),
        Ok(None) => out.text("-"),
        Err(error) => out.refuse_named(error),
    }
}

fn ranges_at(unit: &UnitRef<'_, Borrowed<'_>>, offset: RangeListsOffset<usize>, out: &mut Answer) {
    out.text("at ");
    out.value(&offset.0);
    match unit.ranges(offset) {
        Ok(mut ranges) => {
            for _ in 0..3 {
                match ranges.next() {
                    Ok(Some(range)) => interval(range.begin, range.end, out),
                    Ok(None) => break,
                    Err(error) => return out.refuse_named(error),
                }
            }
        }
        Err(error) => out.refuse_named(error),
    }
}

fn interval(begin: u64, end: u64, out: &mut Answer) {
    out.text(", ");
    out.hex(begin);
    out.text(" to ");
    out.hex(end);
}

fn entry(unit: &UnitRef<'_, Borrowed<'_>>, offset: usize, out: &mut Answer) {
    match entry_at(unit, offset, out.alloc) {
        Ok((count, is_last)) => {
            out.value(&count);
            out.text(if is_last {
                ", the last"
            } else {
                ", not the last"
            });
        }
        Err(error) => out.refuse_named(error),
    }
}

// How many attributes the entry has, which takes the place of the root, and whether it is the last.
fn entry_at(
    unit: &UnitRef<'_, Borrowed<'_>>,
    offset: usize,
    alloc: Global,
) -> Result<(usize, bool), Error> {
    let mut entry = unit.root(alloc)?;
    let mut entries = unit.entries_raw(Some(UnitOffset(offset)))?;
    match entries.read_entry(&mut entry) {
        Ok(_) => Ok((entry.attrs().len(), entries.is_empty())),
        Err(error) => Err(error),
    }
}

// ---- values

// A value of a form (DWARF 5, 7.5.5).
fn value_of<'a>(form: &str, number: usize) -> Option<AttributeValue<Borrowed<'a>>> {
    match form {
        "string" => Some(AttributeValue::String(EndianSlice::new(b"in", LittleEndian))),
        "strp" => Some(AttributeValue::DebugStrRef(DebugStrOffset(number))),
        "strp_sup" => Some(AttributeValue::DebugStrRefSup(DebugStrOffset(number))),
        "line_strp" => Some(AttributeValue::DebugLineStrRef(DebugLineStrOffset(number))),
        "strx" => Some(AttributeValue::DebugStrOffsetsIndex(DebugStrOffsetsIndex(number))),
        "udata" => Some(AttributeValue::Udata(number as u64)),
        _ => None,
    }
}

fn value_text<'a>(
    unit: &UnitRef<'_, Borrowed<'a>>,
    value: AttributeValue<Borrowed<'a>>,
    out: &mut Answer,
) {
    match unit.attr_string(value) {
        Ok(text) => out.lossy(&text),
        Err(error) => out.refuse_named(error),
    }
}
