//! What is written reads back: each function here has an empty body, and its contract is a
//! law.

ghost use Rattle.gimli_lines_write_spec.specs.HeaderReadBack.{HeaderReadsBack};

/// A header and its program read back, whatever follows: its parameters, its directories and files
/// with what version and details record of them, and its program.
pub fn header_reads_back()
    ensures { HeaderReadsBack }
{}
