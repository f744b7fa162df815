//! Laws of legacy names. Each function does nothing; its contract is the law, and it is proved.

ghost use Rattle.addr2line_demangle.specs.LegacyNameLaws.{PathsAreRead, OnlyPathsAreRead, PlainElementsAreUnchanged};

/// A path is read as it is written.
pub fn paths_are_read()
    ensures { PathsAreRead }
{}

/// Nothing but paths is read.
pub fn only_paths_are_read()
    ensures { OnlyPathsAreRead }
{}

/// The text of an element without dollar signs and dots is the element.
pub fn plain_elements_are_unchanged()
    ensures { PlainElementsAreUnchanged }
{}
