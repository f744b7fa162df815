//! Loads of split files, and lookups that wait for them.

use super::frames::frames;
use crate::answer::Answer;
use addr2line_context::{
    Context, Dwarf, Error, LookupContinuation, LookupResult, Reader, SplitDwarfLoad, UnitRef,
    UnitToken,
};
use std::rc::Rc;

/// Sections that answer a load, or why they can't be had; none for no file.
pub type Sections<R> = Result<Option<Rc<Dwarf<R>>>, Error>;

/// The loads of an address, as they are found beforehand.
pub fn loads_at<R: Reader>(context: &mut Context<R>, probe: u64, out: &mut Answer) {
    match context.preload_units(probe) {
        Ok(loads) => {
            if loads.is_empty() {
                out.text("no loads");
            }
            for item in loads.iter() {
                load(&item.0, item.1, out);
            }
        }
        Err(error) => out.refuse_named(error),
    }
}

// The unit's number, the identifier, the directory and the name.
fn load<R: Reader>(load: &SplitDwarfLoad<R>, token: UnitToken, out: &mut Answer) {
    out.text("[");
    out.value(&token.number());
    out.text(": ");
    out.value(&load.dwo_id.0);
    out.text(" ");
    out.lossy_if_any(&load.comp_dir);
    out.text(" ");
    out.lossy_if_any(&load.path);
    out.text("]");
}

/// Answers the load of a unit.
pub fn answer<R: Reader>(
    context: &mut Context<R>,
    number: u64,
    file: Sections<R>,
    out: &mut Answer,
) {
    let token = UnitToken::new(usize::try_from(number).unwrap_or(usize::MAX));
    match file {
        Ok(file) => out.outcome(context.answer_load(token, file)),
        Err(error) => out.refuse_named(error),
    }
}

/// Whether there is a unit of a number, whose line number program may have been run.
pub fn has_unit<R: Reader>(context: &Context<R>, number: u64, out: &mut Answer) {
    let token = UnitToken::new(usize::try_from(number).unwrap_or(usize::MAX));
    out.value(&context.line_runs(token).is_some());
}

/// How many loads the frames of an address wait for, up to five.
pub fn waits_at<R: Reader>(context: &mut Context<R>, probe: u64, out: &mut Answer) {
    match context.find_frames(probe) {
        LookupResult::Load(wait) => {
            let mut count: u32 = 0;
            match loads_of(wait, &mut count) {
                Some(Err(Error::Memory)) => out.refuse_named(Error::Memory),
                _ => out.value(&count),
            }
        }
        LookupResult::Output(Err(Error::Memory)) => out.refuse_named(Error::Memory),
        LookupResult::Output(_) => out.text("0"),
    }
}

// Counts the loads of a lookup, and gives what it finds.
fn loads_of<L: LookupContinuation>(first: L, count: &mut u32) -> Option<L::Output> {
    let mut wait = first;
    for number in 1..6 {
        *count = number;
        match wait.resume(None) {
            LookupResult::Load(next) => wait = next,
            LookupResult::Output(found) => return Some(found),
        }
    }
    None
}

/// Whether the frames of an address wait for a load. The lookup is dropped.
pub fn drops_at<R: Reader>(context: &mut Context<R>, probe: u64, out: &mut Answer) {
    match context.find_frames(probe) {
        LookupResult::Load(_) => out.text("waits"),
        LookupResult::Output(Err(Error::Memory)) => out.refuse_named(Error::Memory),
        LookupResult::Output(_) => out.text("doesn't wait"),
    }
}

/// The frames of an address, whose first load is answered by a file, and the others by none.
pub fn resume_at<R: Reader>(
    context: &mut Context<R>,
    probe: u64,
    file: Sections<R>,
    out: &mut Answer,
) {
    match file {
        Ok(file) => resume_with(context, probe, file, out),
        Err(error) => out.refuse_named(error),
    }
}

fn resume_with<R: Reader>(
    context: &mut Context<R>,
    probe: u64,
    file: Option<Rc<Dwarf<R>>>,
    out: &mut Answer,
) {
    match context.find_frames(probe) {
        LookupResult::Load(wait) => frames(wait.resume(file).skip_all_loads(), out),
        LookupResult::Output(found) => frames(found, out),
    }
}

/// The unit of an address, where each load is answered by no file.
pub fn unit_at<R: Reader>(context: &mut Context<R>, probe: u64, out: &mut Answer) {
    let found = context.find_dwarf_and_unit(probe).skip_all_loads();
    unit(found, out);
}

// A unit: its offset, and its split file's identifier, if it names one.
fn unit<R: Reader>(found: Result<Option<UnitRef<'_, R>>, Error>, out: &mut Answer) {
    match found {
        Ok(Some(found)) => {
            let unit = found.unit;
            out.text("at ");
            out.code(&unit.header.offset().0);
            if let Some(id) = unit.dwo_id {
                out.text(", with identifier ");
                out.value(&id.0);
            }
        }
        Ok(None) => out.text("no unit"),
        Err(error) => out.refuse_named(error),
    }
}

/// The unit of an address, whose first load is answered by a file, and the others by none.
pub fn resume_unit_at<R: Reader>(
    context: &mut Context<R>,
    probe: u64,
    file: Sections<R>,
    out: &mut Answer,
) {
    match file {
        Ok(file) => resume_unit_with(context, probe, file, out),
        Err(error) => out.refuse_named(error),
    }
}

fn resume_unit_with<R: Reader>(
    context: &mut Context<R>,
    probe: u64,
    file: Option<Rc<Dwarf<R>>>,
    out: &mut Answer,
) {
    match context.find_dwarf_and_unit(probe) {
        LookupResult::Load(wait) => unit(wait.resume(file).skip_all_loads(), out),
        LookupResult::Output(found) => unit(found, out),
    }
}
