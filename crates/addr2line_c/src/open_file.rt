//! What a handle owns while it is open: a loaded file, and the last answers, which C reads one
//! after the other.

ghost use Rattle.std.specs.Prelude.{◌≡◌, [], true, false, map, Ok, IfErr, IfOk, IsOk, OnErr};
ghost use Rattle.addr2line_context.specs.BorrowedFrames.{frames_left};
ghost use Rattle.addr2line_context.specs.Error.TheVariants.{Memory};
ghost use Rattle.addr2line_context.specs.Preloads.{load_of_item};
ghost use Rattle.addr2line_context.specs.SettledLookups.{loads_in};
ghost use Rattle.addr2line_split.specs.ImageLoading.{LoadsAsOrNoMemory};
ghost use Rattle.addr2line_loader.specs.DecompressedFiles.{decompressed_file};
ghost use Rattle.addr2line_loader.specs.DecompressResults.{DecompressesAsOrNoMemory};
ghost use Rattle.addr2line_loader.specs.LoadedFiles.{loaded_file};
ghost use Rattle.addr2line_loader.specs.ResolvedFiles.{answered_context};
ghost use Rattle.addr2line_c.specs.Answers.{KeepsFrames, KeepsNext, KeepsStretches};
ghost use Rattle.addr2line_c.specs.Copies.{frame_of};
ghost use Rattle.addr2line_c.specs.OpenHandles.{IsNew};
ghost use Rattle.addr2line_c.specs.ShownFrames.{shown_frame};

use crate::copies::OwnedFrame;
use crate::load_sources::NoFiles;
use addr2line_context::{
    Error, FrameIter, OwnedStretch, RangeWalk, Reader, SplitDwarfLoad, UnitToken,
};
use addr2line_loader::stretches::next_place;
use addr2line_loader::{DecompressError, Loader};
use addr2line_split::{ImageReader, LoadError};
use bytes::Bytes;
use std::alloc::Global;

/// A loaded file, and what the last calls found.
#[derive(Drop)]
pub struct OpenFile {
    pub loader: Loader,
    // Whether compressed sections are decompressed, of split files too.
    pub decompresses: bool,
    // The frames of the last address.
    pub frames: Vec<OwnedFrame>,
    // How far the walk over stretches came.
    pub walk: RangeWalk,
    // The stretches that the last call gave.
    pub stretches: Vec<OwnedStretch>,
    // The loads that the last address waits for.
    pub loads: Vec<(SplitDwarfLoad<ImageReader>, UnitToken)>,
    // The last name of a symbol that isn't lent from the file.
    pub symbol: String,
}

// Appends copies of the frames that remain.
fn push_frames<R: Reader>(
    alloc: Global,
    names: u32,
    frames: FrameIter<'_, R>,
    copies: &mut Vec<OwnedFrame>,
) -> Result<(), Error>
    requires { copies.old.items ≡ [] }
    ensures copies { IfOk result (λ done. map frame_of copies.new.items
        ≡ map (shown_frame names) (frames_left frames.entry)) }
    ensures memory { IfErr result (λ e. e ≡ Memory) }
{
    let mut frames = frames;
    'frame: while let Some(frame) = frames.next()? {
        copies.push(OwnedFrame::copy(alloc, names, &frame)?)?;
    }
    Ok(())
}

impl OpenFile {
    /// The file of some bytes, which it shares, and its supplement, if there is one.
    pub(crate) fn load(
        alloc: Global,
        image: Bytes,
        supplement: Option<Bytes>,
    ) -> Result<OpenFile, LoadError>
        ensures file { LoadsAsOrNoMemory (λ f. f.loader.file) result
            (loaded_file image supplement) }
        ensures new { IfOk result (λ f. IsNew false f) }
    {
        let loader = Loader::from_bytes(alloc, image, supplement)?;
        Ok(OpenFile::over(alloc, loader, false))
    }

    /// The same with compressed sections decompressed. Where there are none, it shares the bytes.
    pub(crate) fn load_decompressed(
        alloc: Global,
        image: Bytes,
        supplement: Option<Bytes>,
    ) -> Result<OpenFile, DecompressError>
        ensures file { DecompressesAsOrNoMemory (λ f. f.loader.file) result
            (decompressed_file image supplement) }
        ensures new { IfOk result (λ f. IsNew true f) }
    {
        let loader = Loader::from_bytes_decompressed(alloc, image, supplement)?;
        Ok(OpenFile::over(alloc, loader, true))
    }

    // A file that is loaded, of which nothing was asked.
    fn over(alloc: Global, loader: Loader, decompresses: bool) -> OpenFile
        ensures loader { result.loader ≡ loader }
        ensures new { IsNew decompresses result }
    {
        OpenFile {
            loader,
            decompresses,
            frames: Vec::new(alloc),
            walk: RangeWalk::new(0, 0),
            stretches: Vec::new(alloc),
            loads: Vec::new(alloc),
            symbol: String::new(alloc),
        }
    }

    // Copies the frames of an address over those that are kept, which are none.
    fn copy_frames(&mut self, alloc: Global, address: u64, names: u32) -> Result<(), Error>
        requires { self.old.frames.items ≡ [] }
        ensures { KeepsFrames address names self.old self.new result }
    {
        let mut source = NoFiles {};
        match self.loader.find_frames(alloc, address, &mut source) {
            Ok(frames) => push_frames(alloc, names, frames, &mut self.frames),
            Err(error) => Err(error),
        }
    }

    /// Keeps the frames of an address; none where they are refused. Each load that it waits for is
    /// answered by no file.
    pub(crate) fn find_frames(
        &mut self,
        alloc: Global,
        address: u64,
        names: u32,
    ) -> Result<(), Error>
        ensures frames { KeepsFrames address names self.old self.new result }
        ensures none { OnErr result (self.new.frames.items ≡ []) }
    {
        self.frames.clear();
        let done = self.copy_frames(alloc, address, names);
        if done.is_err() {
            self.frames.clear();
        }
        done
    }

    // Keeps the next stretch after those that are kept, if one is left. Out of memory leaves the
    // walk where it was.
    fn copy_next(&mut self, alloc: Global) -> Result<bool, Error>
        ensures { KeepsNext self.old self.new result }
    {
        let mut walk = self.walk;
        let stretch = match next_place(&mut self.loader, &mut walk)? {
            Some(item) => OwnedStretch::copy(alloc, item)?,
            None => return Ok(false),
        };
        self.stretches.push(stretch)?;
        self.walk = walk;
        Ok(true)
    }

    /// Keeps the next stretches, as many as asked for at most, in place of those before. A refusal
    /// is left for the next call where there are some before it.
    pub(crate) fn next_stretches(&mut self, alloc: Global, count: usize) -> Result<(), Error>
        ensures { KeepsStretches count self.old self.new result }
    {
        self.stretches.clear();
        'stretch: while self.stretches.len() < count {
            match self.copy_next(alloc) {
                Ok(true) => {}
                Ok(false) => return Ok(()),
                Err(_) if !self.stretches.is_empty() => return Ok(()),
                Err(error) => return Err(error),
            }
        }
        Ok(())
    }

    /// Keeps the loads that an address waits for; none where memory is refused.
    pub(crate) fn find_loads(&mut self, address: u64) -> Result<(), Error>
        ensures loads { IfOk result (λ done. map load_of_item self.new.loads.items
            ≡ loads_in (answered_context self.old.loader.file) address) }
        ensures none { OnErr result (self.new.loads.items ≡ []) }
        ensures memory { IfErr result (λ e. e ≡ Memory) }
        ensures free { loads_in (answered_context self.old.loader.file) address ≡ []
            → IsOk result }
        ensures same { self.new ≡ record self.old { loads = self.new.loads } }
    {
        self.loads.clear();
        self.loads = self.loader.preload_units(address)?;
        Ok(())
    }
}
