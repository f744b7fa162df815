//! How an instruction is executed.

ghost use Rattle.std.specs.Prelude.{◌≡◌, IfErr, Err};
ghost use Rattle.gimli_lines_header.specs.LineHeaders.{LineHeader};
ghost use Rattle.gimli_lines_rows.specs.ProgramInstructions.{rules_of};
ghost use Rattle.gimli_lines_rows.specs.InstructionViews.{line_instruction};
ghost use Rattle.gimli_lines_machine.specs.Machine.{registers_after, IsSound};
ghost use Rattle.gimli_lines_rows.specs.ProgramRows.{Executes, HeaderAfter, TakesNoFileOf};

use crate::LineInstruction;
use crate::numeric::{NumericInstruction, execute_numeric};
use crate::program::LineProgram;
use gimli_lines_header::LineProgramHeader;
use gimli_lines_machine::{Error, LineRules, Reader, Registers};

// What the instructions of a header's program depend on.
pub(crate) fn rules_of<R: Reader>(header: &LineProgramHeader<R>) -> LineRules
    ensures value { result ≡ rules_of header.now }
    ensures sound { IsSound result }
{
    LineRules {
        encoding: header.encoding(),
        line_encoding: header.line_encoding(),
        opcode_base: header.opcode_base(),
    }
}

// Executes an instruction, and says whether it gives a row. Refused, nothing changes. Takes memory
// only for a file that it defines.
pub(crate) fn execute<R: Reader, P: LineProgram<R>>(
    registers: &mut Registers,
    instruction: LineInstruction<R>,
    program: &mut P,
) -> Result<bool, Error>
    ensures registers { Executes result registers.old registers.new
        (registers_after (rules_of (P.header_of program.old)) (line_instruction R.view instruction)
        registers.old) (line_instruction R.view instruction) }
    ensures header { HeaderAfter result P.takes_files (line_instruction R.view instruction)
        (P.header_of program.old) (P.header_of program.new) }
    ensures free { TakesNoFileOf P.takes_files (line_instruction R.view instruction)
        → IfErr result (λ e. registers_after (rules_of (P.header_of program.old))
        (line_instruction R.view instruction) registers.old ≡ Err e) }
{
    let numeric = match instruction {
        LineInstruction::Special(opcode) => NumericInstruction::Special(opcode),
        LineInstruction::Copy => NumericInstruction::Copy,
        LineInstruction::AdvancePc(operations) => NumericInstruction::AdvancePc(operations),
        LineInstruction::AdvanceLine(lines) => NumericInstruction::AdvanceLine(lines),
        LineInstruction::SetFile(file) => NumericInstruction::SetFile(file),
        LineInstruction::SetColumn(column) => NumericInstruction::SetColumn(column),
        LineInstruction::NegateStatement => NumericInstruction::NegateStatement,
        LineInstruction::SetBasicBlock => NumericInstruction::SetBasicBlock,
        LineInstruction::ConstAddPc => NumericInstruction::ConstAddPc,
        LineInstruction::FixedAddPc(bytes) => NumericInstruction::FixedAddPc(bytes),
        LineInstruction::SetPrologueEnd => NumericInstruction::SetPrologueEnd,
        LineInstruction::SetEpilogueBegin => NumericInstruction::SetEpilogueBegin,
        LineInstruction::SetIsa(isa) => NumericInstruction::SetIsa(isa),
        LineInstruction::EndSequence => NumericInstruction::EndSequence,
        LineInstruction::SetAddress(address) => NumericInstruction::SetAddress(address),
        LineInstruction::SetDiscriminator(discriminator) => {
            NumericInstruction::SetDiscriminator(discriminator)
        }
        LineInstruction::DefineFile(file) => {
            program.add_file(file)?;
            return Ok(false);
        }
        LineInstruction::UnknownStandard0(_)
        | LineInstruction::UnknownStandard1(_, _)
        | LineInstruction::UnknownStandardN(_, _)
        | LineInstruction::UnknownExtended(_, _) => return Ok(false),
    };
    execute_numeric(registers, rules_of(program.header()), numeric)
}
