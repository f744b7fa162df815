//! What holds of every program that is built: each function here has an empty body, and its
//! contract is a law.

ghost use Rattle.gimli_lines_write_rows.specs.RowLaws.{ProgramRunsToItsRows, ProgramReadsBack, RowTakesFewInstructions, RowTakesOneOpcode};

/// The instructions that are written for entries run to exactly their rows, and none of them is
/// refused.
pub fn program_runs_to_its_rows()
    ensures { ProgramRunsToItsRows }
{}

/// The bytes of entries read back as their rows, where a reader can follow the addresses.
pub fn program_reads_back()
    ensures { ProgramReadsBack }
{}

/// A row takes at most eleven instructions.
pub fn a_row_takes_few_instructions()
    ensures { RowTakesFewInstructions }
{}

/// A row that changes nothing but the line and the address, and by no more than one special opcode
/// can, takes that opcode alone.
pub fn a_row_takes_one_opcode()
    ensures { RowTakesOneOpcode }
{}
