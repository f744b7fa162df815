//! Instructions whose operands are numbers, which most programs have alone: they are read on
//! borrowed bytes, and executed, without a copy of a reader.

ghost use Rattle.std.specs.Prelude.{◌≡◌};
ghost use Rattle.gimli_lines_machine.specs.Machine.{registers_after, IsSound};
ghost use Rattle.gimli_lines_rows.specs.InstructionViews.{line_instruction};
ghost use Rattle.gimli_lines_rows.specs.NumericInstructions.{numeric_instruction, ExecutesNumeric};

use crate::instruction::LineInstruction;
use gimli_lines_machine::{DwLns, Error, LineRules, Reader, Registers};

// An instruction whose operands are numbers: as `LineInstruction` has them.
#[derive(Clone, Copy)]
pub(crate) enum NumericInstruction {
    Special(u8),
    Copy,
    AdvancePc(u64),
    AdvanceLine(i64),
    SetFile(u64),
    SetColumn(u64),
    NegateStatement,
    SetBasicBlock,
    ConstAddPc,
    FixedAddPc(u16),
    SetPrologueEnd,
    SetEpilogueBegin,
    SetIsa(u64),
    UnknownStandard0(DwLns),
    UnknownStandard1(DwLns, u64),
    EndSequence,
    SetAddress(u64),
    SetDiscriminator(u64),
}

// The instruction as one of all instructions.
pub(crate) fn line_instruction_of<R: Reader>(instruction: NumericInstruction) -> LineInstruction<R>
    ensures { line_instruction R.view result ≡ numeric_instruction instruction }
{
    match instruction {
        NumericInstruction::Special(opcode) => LineInstruction::Special(opcode),
        NumericInstruction::Copy => LineInstruction::Copy,
        NumericInstruction::AdvancePc(operations) => LineInstruction::AdvancePc(operations),
        NumericInstruction::AdvanceLine(lines) => LineInstruction::AdvanceLine(lines),
        NumericInstruction::SetFile(file) => LineInstruction::SetFile(file),
        NumericInstruction::SetColumn(column) => LineInstruction::SetColumn(column),
        NumericInstruction::NegateStatement => LineInstruction::NegateStatement,
        NumericInstruction::SetBasicBlock => LineInstruction::SetBasicBlock,
        NumericInstruction::ConstAddPc => LineInstruction::ConstAddPc,
        NumericInstruction::FixedAddPc(bytes) => LineInstruction::FixedAddPc(bytes),
        NumericInstruction::SetPrologueEnd => LineInstruction::SetPrologueEnd,
        NumericInstruction::SetEpilogueBegin => LineInstruction::SetEpilogueBegin,
        NumericInstruction::SetIsa(isa) => LineInstruction::SetIsa(isa),
        NumericInstruction::UnknownStandard0(opcode) => LineInstruction::UnknownStandard0(opcode),
        NumericInstruction::UnknownStandard1(opcode, operand) => {
            LineInstruction::UnknownStandard1(opcode, operand)
        }
        NumericInstruction::EndSequence => LineInstruction::EndSequence,
        NumericInstruction::SetAddress(address) => LineInstruction::SetAddress(address),
        NumericInstruction::SetDiscriminator(discriminator) => {
            LineInstruction::SetDiscriminator(discriminator)
        }
    }
}

// Executes an instruction, and says whether it gives a row. Refused, nothing changes.
pub(crate) fn execute_numeric(
    registers: &mut Registers,
    rules: LineRules,
    instruction: NumericInstruction,
) -> Result<bool, Error>
    requires { IsSound rules }
    ensures { ExecutesNumeric result registers.old registers.new
        (registers_after rules (numeric_instruction instruction) registers.old) instruction }
{
    match instruction {
        NumericInstruction::Special(opcode) => {
            registers.advance_both(rules, opcode)?;
            return Ok(true);
        }
        NumericInstruction::Copy => return Ok(true),
        NumericInstruction::AdvancePc(operations) => {
            registers.advance_operations(rules, operations)?;
        }
        NumericInstruction::AdvanceLine(lines) => registers.advance_line(lines),
        NumericInstruction::SetFile(file) => registers.file = file,
        NumericInstruction::SetColumn(column) => registers.column = column,
        NumericInstruction::NegateStatement => registers.is_stmt = !registers.is_stmt,
        NumericInstruction::SetBasicBlock => registers.basic_block = true,
        NumericInstruction::ConstAddPc => registers.advance_as(rules, 255)?,
        NumericInstruction::FixedAddPc(bytes) => registers.advance_bytes(rules, bytes)?,
        NumericInstruction::SetPrologueEnd => registers.prologue_end = true,
        NumericInstruction::SetEpilogueBegin => registers.epilogue_begin = true,
        NumericInstruction::SetIsa(isa) => registers.isa = isa,
        NumericInstruction::EndSequence => {
            registers.end_sequence = true;
            return Ok(true);
        }
        NumericInstruction::SetAddress(address) => registers.set_address(rules, address),
        NumericInstruction::SetDiscriminator(discriminator) => {
            registers.discriminator = discriminator;
        }
        NumericInstruction::UnknownStandard0(_) | NumericInstruction::UnknownStandard1(_, _) => {}
    }
    Ok(false)
}
