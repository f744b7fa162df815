//! A law of files of which parts are in memory. The function does nothing; its contract is the law,
//! and it is proved.

ghost use Rattle.addr2line_loader.specs.AlikeFiles.{LoadedAlike};

/// Two files of which a loader gets the same headers, sections and symbols are loaded alike, as are
/// a file and the parts of it that `read_needed` reads: lookups of both give the same.
pub fn parts_are_loaded_alike()
    ensures { LoadedAlike }
{}
