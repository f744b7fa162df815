//! Copies of frames, which a handle keeps, since C reads them one after the other.

ghost use Rattle.std.specs.Prelude.{◌≡◌, option_and_then, option_map};
ghost use Rattle.std.specs.String.{string_bytes};
ghost use Rattle.addr2line_context.specs.OwnedPlaces.{CopiesOrNoMemory};
ghost use Rattle.addr2line_c.specs.Copies.{frame_of};
ghost use Rattle.addr2line_c.specs.ShownFrames.{function_text, shown_frame};

use addr2line_context::{DwLang, Error, Frame, FunctionName, OwnedLocation, Reader};
use gimli_core_base::ReaderOffset;
use std::alloc::Global;

/// A frame, with the text of its function's name.
#[derive(Drop)]
pub struct OwnedFrame {
    pub name: Option<String>,
    pub language: Option<DwLang>,
    pub offset: Option<u64>,
    pub location: Option<OwnedLocation>,
}

// The text of a function's name: the name itself for 0, and else what it means.
fn copy_name<R: Reader>(
    alloc: Global,
    names: u32,
    function: &FunctionName<R>,
) -> Result<String, Error>
    ensures { CopiesOrNoMemory string_bytes result (function_text names function.now) }
{
    let name = if names == 0 {
        function.raw_name(alloc)?
    } else {
        function.demangle(alloc)?
    };
    Ok(String::from_str(alloc, name.as_str())?)
}

// The same if there is a function.
fn copy_name_if_any<R: Reader>(
    alloc: Global,
    names: u32,
    function: &Option<FunctionName<R>>,
) -> Result<Option<String>, Error>
    ensures { CopiesOrNoMemory (option_map string_bytes) result
        (option_map (function_text names) function.now) }
{
    match function {
        Some(function) => Ok(Some(copy_name(alloc, names, function)?)),
        None => Ok(None),
    }
}

// The language of a function's unit, if it is known.
fn language_of<R: Reader>(function: &Option<FunctionName<R>>) -> Option<DwLang>
    ensures { option_map (λ l. l.0) result ≡ option_and_then (λ n. n.language) function.now }
{
    match function {
        Some(function) => function.language,
        None => None,
    }
}

impl OwnedFrame {
    // A copy of a frame.
    pub(crate) fn copy<R: Reader>(
        alloc: Global,
        names: u32,
        frame: &Frame<'_, R>,
    ) -> Result<OwnedFrame, Error>
        ensures { CopiesOrNoMemory frame_of result (shown_frame names frame.now) }
    {
        let offset = match frame.dw_die_offset {
            Some(offset) => Some(offset.0.into_u64()),
            None => None,
        };
        Ok(OwnedFrame {
            name: copy_name_if_any(alloc, names, &frame.function)?,
            language: language_of(&frame.function),
            offset,
            location: OwnedLocation::copy_if_any(alloc, frame.location)?,
        })
    }
}
