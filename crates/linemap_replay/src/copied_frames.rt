//! Copies of frames and of units.

ghost use Rattle.std.specs.Prelude.{◌≡◌, option_map, map};
ghost use Rattle.addr2line_context.specs.BorrowedFrames.{frames_left};
ghost use Rattle.addr2line_context.specs.OwnedPlaces.{CopiesOrNoMemory};
ghost use Rattle.linemap_replay.specs.OwnedAnswers.{frames_copy, answer_of, name_of, frame_of, unit_of, copied_name, copied_frame, copied_unit};

use crate::answer::{Answer, OwnedFrame, OwnedName, OwnedUnit};
use addr2line_context::{Error, Frame, FrameIter, FunctionName, OwnedLocation, Reader, UnitRef};
use gimli_core_base::ReaderOffset;
use std::alloc::Global;

// A copy of a function's name, if it has one.
fn copy_name<R: Reader>(
    alloc: Global,
    function: &Option<FunctionName<R>>,
) -> Result<Option<OwnedName>, Error>
    ensures { CopiesOrNoMemory (option_map name_of) result (option_map copied_name function.now) }
{
    match function {
        Some(function) => Ok(Some(OwnedName {
            name: Vec::from_slice(alloc, function.name.as_bytes())?,
            language: function.language,
        })),
        None => Ok(None),
    }
}

fn copy_frame<R: Reader>(alloc: Global, frame: &Frame<'_, R>) -> Result<OwnedFrame, Error>
    ensures { CopiesOrNoMemory frame_of result (copied_frame frame.now) }
{
    let dw_die_offset = match frame.dw_die_offset {
        Some(offset) => Some(offset.0.into_u64()),
        None => None,
    };
    let function = copy_name(alloc, &frame.function)?;
    let location = OwnedLocation::copy_if_any(alloc, frame.location)?;
    Ok(OwnedFrame {
        dw_die_offset,
        function,
        location,
    })
}

// Copies of the frames that remain, in their order.
fn copy_frames<R: Reader>(alloc: Global, frames: FrameIter<'_, R>) -> Result<Vec<OwnedFrame>, Error>
    ensures { CopiesOrNoMemory (λ copies. map frame_of copies.items) result
        (map copied_frame (frames_left frames.entry)) }
{
    let mut frames = frames;
    let mut copies = Vec::new(alloc);
    while let Some(frame) = frames.next()? {
        copies.push(copy_frame(alloc, &frame)?)?;
    }
    Ok(copies)
}

// The same as an answer.
pub(crate) fn answer_frames<R: Reader>(
    alloc: Global,
    frames: FrameIter<'_, R>,
) -> Result<Answer, Error>
    ensures { CopiesOrNoMemory answer_of result
        (frames_copy (map copied_frame (frames_left frames.entry))) }
{
    Ok(Answer::Frames(copy_frames(alloc, frames)?))
}

// The kind of a unit's file, and the unit's offset there.
fn copy_unit<R: Reader>(unit: &UnitRef<'_, R>) -> OwnedUnit
    ensures { unit_of result ≡ copied_unit unit.now }
{
    let sections = unit.dwarf;
    let facts = unit.unit;
    OwnedUnit {
        file_type: sections.file_type,
        offset: facts.header.offset().0.into_u64(),
    }
}

// The same, if there is a unit.
pub(crate) fn copy_unit_if_any<R: Reader>(unit: Option<UnitRef<'_, R>>) -> Option<OwnedUnit>
    ensures { option_map unit_of result ≡ option_map copied_unit unit.entry }
{
    match unit {
        Some(unit) => Some(copy_unit(&unit)),
        None => None,
    }
}
