//! Answers as text, as programs of this kind print them: of a function its name on a line of its
//! own, of a place the file, a colon and the line.

use crate::lookups_bench::fault::Fault;
use addr2line_context::{Context, Frame, Location, Reader, SplitDwarfLoad, UnitRef};
use itoa::Buffer;
use std::alloc::{AllocError, Global};
use std::io::Write;

// The text that is written at once.
const ENOUGH: usize = 1 << 16;

/// A text on its way to a writer.
#[derive(Drop)]
pub struct Answers<W: Write + Drop> {
    out: W,
    text: Vec<u8>,
}

impl<W: Write + Drop> Answers<W> {
    /// No text yet.
    pub fn new(alloc: Global, out: W) -> Result<Self, AllocError> {
        let text = Vec::with_capacity(alloc, 2 * ENOUGH)?;
        Ok(Answers { out, text })
    }

    /// Adds the place of an address.
    pub fn add_place<R: Reader>(
        &mut self,
        context: &mut Context<R>,
        address: u64,
    ) -> Result<(), Fault> {
        let place = context.find_location(address)?;
        push_place(&mut self.text, place)?;
        self.write_if_enough()
    }

    /// Adds the frames of an address. Loads are answered by no file.
    pub fn add_frames<R: Reader>(
        &mut self,
        context: &mut Context<R>,
        address: u64,
    ) -> Result<(), Fault> {
        let mut frames = context.find_frames(address).skip_all_loads()?;
        let mut is_any = false;
        for _ in 0..u64::MAX {
            match frames.next()? {
                Some(frame) => push_frame(&mut self.text, &frame)?,
                None => break,
            }
            is_any = true;
        }
        if !is_any {
            push_unknown(&mut self.text)?;
        }
        self.write_if_enough()
    }

    /// Adds the loads that lookups of an address wait for, each of which is answered by no file,
    /// and then the frames of the address.
    pub fn add_loads<R: Reader>(
        &mut self,
        context: &mut Context<R>,
        address: u64,
    ) -> Result<(), Fault> {
        let loads = context.preload_units(address)?;
        for (load, token) in &loads {
            context.answer_load(*token, None)?;
            push_load(&mut self.text, load)?;
            self.write_if_enough()?;
        }
        self.add_frames(context, address)
    }

    /// Adds the name of the unit of an address. Loads are answered by no file.
    pub fn add_unit<R: Reader>(
        &mut self,
        context: &mut Context<R>,
        address: u64,
    ) -> Result<(), Fault> {
        let unit = context.find_dwarf_and_unit(address).skip_all_loads()?;
        match unit {
            Some(unit) => push_unit(&mut self.text, &unit)?,
            None => self.text.extend_from_slice(b"??\n")?,
        }
        self.write_if_enough()
    }

    fn write_if_enough(&mut self) -> Result<(), Fault> {
        if self.text.len() < ENOUGH {
            return Ok(());
        }
        self.write()
    }

    /// Writes what isn't written yet.
    pub fn write(&mut self) -> Result<(), Fault> {
        self.out.write_all(&self.text)?;
        self.text.clear();
        Ok(())
    }
}

fn push_place(text: &mut Vec<u8>, place: Option<Location<'_>>) -> Result<(), AllocError> {
    let Some(place) = place else {
        return text.extend_from_slice(b"??:0\n");
    };
    text.extend_from_slice(place.file.unwrap_or("??").as_bytes())?;
    text.extend_from_slice(b":")?;
    match place.line {
        Some(line) => text.extend_from_slice(Buffer::new().format(line).as_bytes())?,
        None => text.extend_from_slice(b"?")?,
    }
    text.extend_from_slice(b"\n")
}

fn push_frame<R: Reader>(text: &mut Vec<u8>, frame: &Frame<'_, R>) -> Result<(), AllocError> {
    match &frame.function {
        Some(function) => text.extend_from_slice(function.name.as_bytes())?,
        None => text.extend_from_slice(b"??")?,
    }
    text.extend_from_slice(b"\n")?;
    push_place(text, frame.location)
}

fn push_unknown(text: &mut Vec<u8>) -> Result<(), AllocError> {
    text.extend_from_slice(b"??\n??:0\n")
}

// A text, and the end of the line.
fn push_text<R: Reader>(text: &mut Vec<u8>, line: &Option<R>) -> Result<(), AllocError> {
    match line {
        Some(line) => text.extend_from_slice(line.as_bytes())?,
        None => text.extend_from_slice(b"??")?,
    }
    text.extend_from_slice(b"\n")
}

fn push_load<R: Reader>(text: &mut Vec<u8>, load: &SplitDwarfLoad<R>) -> Result<(), AllocError> {
    text.extend_from_slice(Buffer::new().format(load.dwo_id.0).as_bytes())?;
    text.extend_from_slice(b" ")?;
    push_text(text, &load.path)
}

fn push_unit<R: Reader>(text: &mut Vec<u8>, unit: &UnitRef<'_, R>) -> Result<(), AllocError> {
    let facts = unit.unit;
    push_text(text, &facts.name)
}
