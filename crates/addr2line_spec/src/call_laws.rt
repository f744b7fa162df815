//! What follows from the definitions. Each function is a law: it does nothing, and its contract is
//! proved.

ghost use Rattle.addr2line_spec.specs.InlinedCallLaws.{ChainStep, DepthsFollow, EachIsEnclosed};

/// An entry below a function's has as many enclosing entries as its depth says, each with children
/// (DWARF 5, 7.5.2).
pub fn each_is_enclosed()
    ensures { EachIsEnclosed }
{}

/// The calls of an address are that of depth 0, that of depth 1, and so on; where there is none,
/// they end.
pub fn chain_step()
    ensures { ChainStep }
{}

/// The depths of these calls follow each other.
pub fn depths_follow()
    ensures { DepthsFollow }
{}
