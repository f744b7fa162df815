//! The frames of an address, with the split files of a source.

ghost use Rattle.addr2line_context.specs.BorrowedFrames.{frames_left};
ghost use Rattle.addr2line_loader.specs.SourceAnswers.{AfterFrames};

use crate::answers::answer_loads;
use crate::loader::Loader;
use addr2line_context::frame_loads::lend_frames;
use addr2line_context::{Error, FrameIter};
use addr2line_split::{ImageReader, SplitSource};
use std::alloc::Global;

impl Loader {
    ghost use Rattle.std.specs.Borrow.{sem};
    ghost use Rattle.std.specs.Io.BufRead.{Rests};
    ghost use Rattle.addr2line_loader.specs.contracts.loader.Loader.{the_row};

    /// The frames of an address, as `Context::find_frames` finds them, with each load answered by
    /// the split file that a source has for it, or by none. The answers are kept, also those before
    /// out of memory; a load for which the source is out of memory has none. What is read is kept,
    /// and neither lines nor functions are read of units after the one in which the search ends.
    pub fn find_frames<S: SplitSource>(
        &mut self,
        alloc: Global,
        probe: u64,
        source: &mut S,
    ) -> Result<FrameIter<'_, ImageReader>, Error>
        ensures* after { sem 𝓛 (Rests the_row self.entry (λ left. AfterFrames S.answers probe
            frames_left self.old source.old result left source.new)) }
    {
        let decided = answer_loads(alloc, &mut self.context, probe, source)?;
        lend_frames(&self.context, decided)
    }
}
