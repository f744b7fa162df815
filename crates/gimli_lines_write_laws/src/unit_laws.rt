//! What is written reads back: each function here has an empty body, and its contract is a
//! law.

ghost use Rattle.gimli_lines_write_laws.specs.UnitReadBack.{UnitReadsBack};

/// A unit that was written reads back, whatever follows: its directories and files with what
/// version and details record of them, and its rows.
pub fn unit_reads_back()
    ensures { UnitReadsBack }
{}
