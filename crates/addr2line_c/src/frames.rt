//! The frames of an address.

ghost use Rattle.std.specs.Prelude.{◌≡◌, ◌≢◌, ◌<◌, ◌≤◌, [], ℕ, ◌+◌, ◌-◌, length, min, slice_get, option_map, Result, Some};
ghost use Rattle.addr2line_context.specs.Error.{Error};
ghost use Rattle.addr2line_c.specs.Answers.{KeepsFrames};
ghost use Rattle.addr2line_c.specs.Copies.{frame_of};
ghost use Rattle.addr2line_c.specs.COutputs.{frame_out, frame_written};
ghost use Rattle.addr2line_c.specs.Numbers.{done_number, frames_number, refused_number, some_number};

use crate::c_types::A2lFrame;
use crate::copies::OwnedFrame;
use crate::handle::Handle;
use crate::numbers::{NO_ROOM, OK, PAST_END, done_number, refused_number};
use std::alloc::Global;

/// Finds the frames of an address, and keeps them. The texts of names are those of raw names for 0,
/// and else demangled.
#[unsafe(no_mangle)]
pub extern "C" fn a2l_find_frames(
    alloc: Global,
    handle: &mut Handle,
    address: u64,
    names: u32,
    count: &mut usize,
) -> i32
    ensures frames { handle.old.opened ≡ 1 → (handle.new.opened ≡ 1)
        × ((done : Result (Unit {0}) Error)
        × KeepsFrames address names handle.old.file handle.new.file done
        × (result ≡ done_number done)) }
    ensures count { result ≡ OK → count.new ≡ length handle.new.file.frames.items }
    ensures none { result ≢ OK → (count.new ≡ 0)
        × (handle.old.opened ≡ 1 → handle.new.file.frames.items ≡ []) }
    ensures refused { handle.old.opened ≢ 1 → (result ≡ refused_number handle.old.opened)
        × (handle.new ≡ handle.old) }
{
    *count = 0;
    let opened = handle.state();
    if opened != 1 {
        return refused_number(opened);
    }
    let file = handle.file_mut();
    let done = file.find_frames(alloc, address, names);
    if done.is_ok() {
        *count = file.frames.len();
    }
    done_number(done)
}

/// The frame of a number, of those that are kept. Its texts are lent until the handle is used
/// again.
#[unsafe(no_mangle)]
pub extern "C" fn a2l_get_frame<'a>(
    handle: &'a mut Handle,
    number: usize,
    out: &mut A2lFrame<'a>,
) -> i32
    ensures number { handle.old.opened ≡ 1 → result
        ≡ some_number (slice_get handle.old.file.frames.items number) PAST_END }
    ensures frame { result ≡ OK
        → option_map (λ f. frame_out (frame_of f)) (slice_get handle.old.file.frames.items number)
        ≡ Some (frame_written out.new) }
    ensures same { result ≢ OK → out.new ≡ out.old }
    ensures refused { handle.old.opened ≢ 1 → result ≡ refused_number handle.old.opened }
{
    let opened = handle.state();
    if opened != 1 {
        return refused_number(opened);
    }
    let frames: &[OwnedFrame] = handle.file().frames.as_slice();
    match frames.get(number) {
        Some(frame) => {
            *out = A2lFrame::of(frame);
            OK
        }
        None => PAST_END,
    }
}

// Writes frames from a number on, as many as there is room for, and says how many.
fn write_frames<'a>(frames: &'a [OwnedFrame], first: usize, out: &mut [A2lFrame<'a>]) -> usize
    requires { first < length frames.now }
    ensures count { result ≡ min (length out.old) (length frames.now - first) }
    ensures written { (i : ℕ) → i < result
        → option_map frame_written (slice_get out.new i)
        ≡ option_map (λ f. frame_out (frame_of f)) (slice_get frames.now (first + i)) }
    ensures rest { (i : ℕ) → result ≤ i → slice_get out.new i ≡ slice_get out.old i }
{
    let count = out.len().min(frames.len() - first);
    'frame: for i in 0..count {
        out[i] = A2lFrame::of(&frames[first + i]);
    }
    count
}

/// The frames from a number on, of those that are kept, as many as there is room for. Their texts
/// are lent until the handle is used again.
#[unsafe(no_mangle)]
pub extern "C" fn a2l_get_frames<'a>(
    handle: &'a mut Handle,
    first: usize,
    out: &mut [A2lFrame<'a>],
    count: &mut usize,
) -> i32
    ensures number { handle.old.opened ≡ 1 → result
        ≡ frames_number (length out.old) (slice_get handle.old.file.frames.items first) }
    ensures count { result ≡ OK → count.new
        ≡ min (length out.old) (length handle.old.file.frames.items - first) }
    ensures written { result ≡ OK → (i : ℕ) → i < count.new
        → option_map frame_written (slice_get out.new i)
        ≡ option_map (λ f. frame_out (frame_of f))
        (slice_get handle.old.file.frames.items (first + i)) }
    ensures none { result ≢ OK → (count.new ≡ 0) × (out.new ≡ out.old) }
    ensures refused { handle.old.opened ≢ 1 → result ≡ refused_number handle.old.opened }
{
    *count = 0;
    let opened = handle.state();
    if opened != 1 {
        return refused_number(opened);
    }
    if out.is_empty() {
        return NO_ROOM;
    }
    let frames: &[OwnedFrame] = handle.file().frames.as_slice();
    if frames.len() <= first {
        return PAST_END;
    }
    *count = write_frames(frames, first, out);
    OK
}
