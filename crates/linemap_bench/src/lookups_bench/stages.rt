//! The parts of a run, each timed.

use crate::lookups_bench::answers::Answers;
use crate::lookups_bench::fault::Fault;
use crate::lookups_bench::request::{Part, Question, Task};
use addr2line_context::{Context, Error, LocationRangeIter, Reader};
use std::alloc::{AllocError, Global};
use std::io;
use std::io::Write;
use std::rt::Runtime;
use std::time::Instant;

/// The time.
pub fn now<R: Runtime>(rt: &R) -> Result<Instant, Fault> {
    match Instant::now(rt) {
        Ok(now) => Ok(now),
        Err(_) => Err(Fault::Stream),
    }
}

fn print_time<R: Runtime>(rt: &R, part: &str, start: Instant) -> io::Result<()> {
    let took = start.elapsed(rt)?.as_micros();
    eprintln!(rt; "{part}: {took} us")
}

/// Prints to standard error how long a part took.
pub fn report<R: Runtime>(rt: &R, part: &str, start: Instant) -> Result<(), Fault> {
    match print_time(rt, part, start) {
        Ok(()) => Ok(()),
        Err(_) => Err(Fault::Stream),
    }
}

/// Does what is asked of a context that has been in the making since the start. The text has the
/// addresses, where some are asked for.
pub fn perform<R: Runtime + AllocGlobal, I: Reader>(
    rt: &R,
    start: Instant,
    context: &mut Context<I>,
    task: Task<'_>,
    text: &str,
) -> Result<(), Fault> {
    report(rt, "context", start)?;
    match task {
        Task::Each(question, _) => answer_text(rt, context, question, text),
        Task::Rows => answer_rows(rt, context),
        Task::Read(part) => read_timed(rt, context, part),
    }
}

// Answers the addresses of a text.
fn answer_text<R: Runtime + AllocGlobal, I: Reader>(
    rt: &R,
    context: &mut Context<I>,
    question: Question,
    text: &str,
) -> Result<(), Fault> {
    let start = now(rt)?;
    let addresses = addresses_in(rt.alloc(), text)?;
    report(rt, "addresses", start)?;
    answer(rt, context, question, &addresses)
}

// Answers all addresses at which rows begin by their places.
fn answer_rows<R: Runtime + AllocGlobal, I: Reader>(
    rt: &R,
    context: &mut Context<I>,
) -> Result<(), Fault> {
    let start = now(rt)?;
    let addresses = addresses_of_rows(rt.alloc(), context)?;
    report(rt, "addresses", start)?;
    answer(rt, context, Question::Place, &addresses)
}

fn answer<R: Runtime + AllocGlobal, I: Reader>(
    rt: &R,
    context: &mut Context<I>,
    question: Question,
    addresses: &[u64],
) -> Result<(), Fault> {
    let start = now(rt)?;
    print_answers(rt, context, question, addresses)?;
    report(rt, "answers", start)
}

fn read_timed<R: Runtime, I: Reader>(
    rt: &R,
    context: &mut Context<I>,
    part: Part,
) -> Result<(), Fault> {
    let start = now(rt)?;
    read_all(context, part)?;
    report(rt, "units", start)
}

// Reads this of all units.
fn read_all<I: Reader>(context: &mut Context<I>, part: Part) -> Result<(), Error> {
    match part {
        Part::Lines => context.parse_lines(),
        Part::Functions => context.parse_functions(),
        Part::Calls => context.parse_inlined_functions(),
    }
}

// The addresses of a text, one a line, with or without `0x`. Other lines are skipped.
fn addresses_in(alloc: Global, text: &str) -> Result<Vec<u64>, Fault> {
    let mut addresses = Vec::new(alloc);
    for line in text.lines() {
        let digits = line.strip_prefix("0x").unwrap_or(line);
        if let Ok(address) = u64::from_str_radix(digits, 16) {
            addresses.push(address)?;
        }
    }
    Ok(addresses)
}

// The addresses at which rows begin, each once.
fn addresses_of_rows<R: Reader>(
    alloc: Global,
    context: &mut Context<R>,
) -> Result<Vec<u64>, Fault> {
    let mut addresses = Vec::new(alloc);
    match context.find_location_range(0, u64::MAX) {
        Ok(mut found) => push_addresses(&mut addresses, &mut found)?,
        Err(error) => return Err(Fault::from(error)),
    }
    addresses.sort_unstable();
    addresses.dedup();
    Ok(addresses)
}

fn push_addresses<R: Reader>(
    addresses: &mut Vec<u64>,
    found: &mut LocationRangeIter<'_, R>,
) -> Result<(), Fault> {
    for _ in 0..u64::MAX {
        match found.next()? {
            Some((address, _, _)) => addresses.push(address)?,
            None => break,
        }
    }
    Ok(())
}

fn print_answers<R: Runtime + AllocGlobal, I: Reader>(
    rt: &R,
    context: &mut Context<I>,
    question: Question,
    addresses: &[u64],
) -> Result<(), Fault> {
    match Answers::new(rt.alloc(), io::writer(rt)) {
        Ok(mut answers) => {
            add_answers(&mut answers, context, question, addresses)?;
            answers.write()
        }
        Err(_) => Err(Fault::from(AllocError)),
    }
}

fn add_answers<W: Write + Drop, I: Reader>(
    answers: &mut Answers<W>,
    context: &mut Context<I>,
    question: Question,
    addresses: &[u64],
) -> Result<(), Fault> {
    for address in addresses {
        match question {
            Question::Place => answers.add_place(context, *address)?,
            Question::Frames => answers.add_frames(context, *address)?,
            Question::Loads => answers.add_loads(context, *address)?,
            Question::Unit => answers.add_unit(context, *address)?,
        }
    }
    Ok(())
}
