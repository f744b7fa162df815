//! The conditions that a table's units meet, in the order of their numbers.

/// A condition that units can break. Of several that are broken `Nesting` is reported, or else the
/// lowest.
#[derive(Debug, Clone, Copy, PartialEq, Eq)]
pub enum Rule {
    /// B4: a range ends at or below its begin.
    EmptyRange,
    /// B5: the begin or end of a range, the address of a row or the end of a sequence is not within
    /// 1 to 2^64 - 3.
    Bounds,
    /// B6: a unit, function or call has no range.
    NoRange,
    /// B7: two ranges of units share an address.
    UnitsOverlap,
    /// B8: a function's range lies in no single range of its unit.
    FunctionOutside,
    /// B9: two ranges of functions of one unit share an address.
    FunctionsOverlap,
    /// B10: a call's range lies in no single range of the function or call that it is in.
    CallOutside,
    /// B11: two ranges of calls in the same function or call share an address.
    CallsOverlap,
    /// B12: the addresses of a sequence lie in no single range of its unit.
    SequenceOutside,
    /// B13: two sequences of one unit share an address.
    SequencesOverlap,
    /// B14: a sequence has no rows, or rows that go back, or one that is not below its end.
    Rows,
    /// B15: a line or column, of a row or a call, is not within 1 to 2^32 - 1.
    LineOrColumn,
    /// B16: a row or a call names a file that its unit doesn't have.
    FileNumber,
    /// B17: a directory or name is empty or has a zero byte.
    Text,
    /// B18: a unit's directory has no root, so that a join would append it.
    NotRooted,
    /// B19: calls are nested more than 50 deep.
    Nesting,
    /// B20: a row's discriminator is above 2^32 - 1.
    Discriminator,
}
