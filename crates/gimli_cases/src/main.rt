//! Answers questions about DWARF bytes, one a line: the name of an operation, the numbers that it
//! needs, and after a colon the sections that it reads, in hexadecimal; `0b*70000` is a byte 70,000
//! times, and `+` joins parts. Each question is answered twice, from borrowed and from shared
//! bytes, and a difference is a fault. A line that begins with `#` is a heading. A question for
//! which memory is refused is asked again, and its answer begins with `E1, then`.
#![tactic(auto)]

mod answer;
mod attributes;
mod borrowed;
mod by_reference;
mod caches;
mod case;
mod facility;
mod lines;
mod lists;
mod numbers;
mod parts;
mod program_parts;
mod programs;
mod refusals;
mod sections;
mod steps;
mod tables;
mod unit_parts;
mod units;
mod writing;

use answer::{Answer, WholeAnswer};
use bytes::Bytes;
use case::{Case, Mistake};
use facility::{Facility, facility_of};
use gimli_core::{
    BigEndian, EndianBytes, EndianSlice, Endianity, LittleEndian, Reader, ReaderOffsetId,
    RunTimeEndian,
};
use gimli_lines::DebugLine;
use sections::Sections;
use std::alloc::{AllocError, Global};
use std::io::{BufRead, BufReader};

fn main(rt: HostRuntime) -> Result<(), Mistake> {
    let input = BufReader::new(rt.alloc(), rt.reader())?;
    for line in input.lines(rt.alloc()) {
        let line = line?;
        if line.starts_with('#') || line.is_empty() {
            println!(rt; "{line}")?;
        } else {
            println!(rt; "{}", answer_line(rt.alloc(), &line)?)?;
        }
    }
    Ok(())
}

// The answer to a question, which both readers have to give.
fn answer_line(alloc: Global, line: &str) -> Result<String, Mistake> {
    let case = Case::parse(alloc, line)?;
    let borrowed = match answer_borrowed(alloc, &case) {
        Err(_) => second(answer_borrowed(alloc, &case)),
        first => first,
    };
    let shared = match answer_shared(alloc, &case) {
        Err(_) => second(answer_shared(alloc, &case)),
        first => first,
    };
    match (borrowed, shared) {
        (Ok(borrowed), Ok(shared)) => Ok(answer_of_both(alloc, &borrowed, &shared)?),
        _ => Err(Mistake::Memory),
    }
}

// The answer to a question that is asked again.
fn second(answer: Result<WholeAnswer, AllocError>) -> Result<WholeAnswer, AllocError> {
    match answer {
        Ok(answer) => Ok(WholeAnswer {
            text: answer.text,
            is_second: true,
        }),
        Err(error) => Err(error),
    }
}

fn answer_of_both(
    alloc: Global,
    borrowed: &WholeAnswer,
    shared: &WholeAnswer,
) -> Result<String, AllocError> {
    let is_second = borrowed.is_second || shared.is_second;
    let before = if is_second { "E1, then " } else { "" };
    let (borrowed, shared) = (borrowed.text.as_str(), shared.text.as_str());
    if borrowed == shared {
        format!(in alloc; "{before}{borrowed}")
    } else {
        format!(in alloc; "fault: {borrowed} if borrowed, {shared} if shared")
    }
}

// The answer from borrowed bytes, whose order is a type.
fn answer_borrowed(alloc: Global, case: &Case) -> Result<WholeAnswer, AllocError> {
    if case.is_big {
        answer_with(alloc, case, borrowed_sections(case, BigEndian))
    } else {
        answer_with(alloc, case, borrowed_sections(case, LittleEndian))
    }
}

fn borrowed_sections<E: Endianity>(case: &Case, order: E) -> Sections<EndianSlice<'_, E>> {
    Sections {
        first: borrowed_reader(case, 0, order),
        second: borrowed_reader(case, 1, order),
        third: borrowed_reader(case, 2, order),
    }
}

fn borrowed_reader<E: Endianity>(case: &Case, number: usize, order: E) -> EndianSlice<'_, E> {
    let first = ReaderOffsetId(u64::from(case.first(number)));
    EndianSlice::with_first_id(case.section(number), order, first)
}

// The answer from shared bytes, whose order is a value.
fn answer_shared(alloc: Global, case: &Case) -> Result<WholeAnswer, AllocError> {
    let sections = Sections {
        first: shared_reader(alloc, case, 0)?,
        second: shared_reader(alloc, case, 1)?,
        third: shared_reader(alloc, case, 2)?,
    };
    answer_with(alloc, case, sections)
}

fn shared_reader(
    alloc: Global,
    case: &Case,
    number: usize,
) -> Result<EndianBytes<RunTimeEndian>, AllocError> {
    let bytes = Bytes::copy_from_slice(alloc, case.section(number))?;
    match case.first(number) {
        0 => Ok(EndianBytes::new(bytes, case.order())),
        first => {
            let first = ReaderOffsetId(u64::from(first));
            Ok(EndianBytes::with_first_id(bytes, case.order(), first))
        }
    }
}

fn answer_with<R: Reader>(
    alloc: Global,
    case: &Case,
    sections: Sections<R>,
) -> Result<WholeAnswer, AllocError> {
    let mut out = Answer::new(alloc);
    dispatch(alloc, case, sections, &mut out);
    out.finish()
}

// Has the part of the program answer that the operation is about.
fn dispatch<R: Reader>(alloc: Global, case: &Case, sections: Sections<R>, out: &mut Answer) {
    match facility_of(&case.operation) {
        Facility::Refusals => refusals::answer(out),
        Facility::Numbers => numbers::answer(alloc, case, sections.first, out),
        Facility::Parts => parts::answer(case, sections.first, out),
        Facility::SliceParts => parts::answer_about_slices(case, out),
        Facility::Widths => sections::widths(case, out),
        Facility::Bases => sections::default_bases(case, out),
        Facility::SectionNames => sections::names::<R>(out),
        Facility::Sections => sections::answer(alloc, case, sections, out),
        Facility::Borrowed => borrowed::answer(alloc, case, out),
        Facility::Caches => caches::answer(alloc, case, sections, out),
        Facility::Units => units::answer(case, sections.first, out),
        Facility::UnitParts => unit_parts::answer(case, sections.first, out),
        Facility::Entries => units::answer_about_entries(alloc, case, sections, out),
        Facility::Attributes => attributes::answer(alloc, case, sections, out),
        Facility::Ranges => lists::answer(case, sections, out),
        Facility::Locations => lists::answer_about_locations(case, sections, out),
        Facility::ListsHeader => lists::lists_header(sections.first, out),
        Facility::RangePlaces => lists::place_in_ranges(case, sections, out),
        Facility::Lines => {
            let section = DebugLine::from(sections.first);
            lines::answer(alloc, case, &section, sections.second, sections.third, out);
        }
        Facility::LineChecks => lines::check(case, &DebugLine::from(sections.first), out),
        Facility::Steps => steps::answer(alloc, case, sections, out),
        Facility::Writing => writing::answer(alloc, case, sections.first.endian(), out),
        Facility::Programs => programs::answer(alloc, case, sections.first.endian(), out),
        Facility::ProgramParts => program_parts::answer(alloc, case, out),
        Facility::Tables => tables::answer(alloc, case, out),
        Facility::Unknown => out.text("no such operation"),
    }
}
