//! What follows from the definitions of lookups whose loads are skipped. Each function is a law: it
//! does nothing, and its contract is proved.

ghost use Rattle.addr2line_context.specs.SkippedLoads.{SkipsToFrames, SkipsToUnit};

/// Resumed with no file for each load that it waits for, one after the other, a lookup of frames
/// finds what it finds where each load without an answer is answered by no file.
pub fn skips_to_frames()
    ensures { SkipsToFrames }
{}

/// So does a lookup of a unit.
pub fn skips_to_unit()
    ensures { SkipsToUnit }
{}
