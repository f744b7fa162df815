/// An offset into `.debug_info`.
#[derive(Clone, Copy, Debug, PartialEq, Eq, PartialOrd, Ord, Hash)]
pub struct DebugInfoOffset<T = usize>(pub T);

/// An offset from the first byte of a unit's header.
#[derive(Clone, Copy, Debug, PartialEq, Eq, PartialOrd, Ord, Hash)]
pub struct UnitOffset<T = usize>(pub T);
