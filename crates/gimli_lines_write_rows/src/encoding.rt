//! The bytes of rows and ends, by what they change.

ghost use Rattle.std.specs.Prelude.{◌≡◌, ◌+◌, ◌-◌, ◌*◌, ◌^◌, ◌<◌, ◌≤◌, ◌++◌, ◌-ℤ◌, pos, true, not, ◌==◌, OnOk, IfOk, IfErr};
ghost use Rattle.gimli_lines_write_bytes.specs.declared.error.Error.TheVariants.{Memory};
ghost use Rattle.gimli_lines_write_rows.specs.BuiltRows.{raw_file, can_place, operations_between};
ghost use Rattle.gimli_lines_write_rows.specs.RowPieces.{IsBuildable, flags, changes, is_special, line_step, most_operations, room, advance, opcode_operations, moves, row_piece, end_piece};
ghost use Rattle.gimli_lines_write_rows.specs.LineInstructionBytes.{instructions_bytes};

use crate::instruction::LineInstruction;
use crate::row::LineRow;
use gimli_lines_machine::LineRules;
use gimli_lines_write_bytes::{Error, LineEncoding};

// The opcode of no line and no operation, were the line base 0.
const OPCODE_BASE: u8 = 13;

// Puts what holds for the row alone.
#[tactic(auto, unfolding(crate::specs::RowPieces::flags))]
fn encode_flags(out: &mut Vec<u8>, row: &LineRow) -> Result<(), Error>
    ensures ok { OnOk result (out.new.items ≡ out.old.items ++ instructions_bytes (flags row.now)) }
    ensures refusal { IfErr result (λ e. e ≡ Memory) }
{
    let discriminator = row.discriminator;
    LineInstruction::SetDiscriminator(discriminator).encode_if(discriminator != 0, out)?;
    LineInstruction::SetBasicBlock.encode_if(row.basic_block, out)?;
    LineInstruction::SetPrologueEnd.encode_if(row.prologue_end, out)?;
    LineInstruction::SetEpilogueBegin.encode_if(row.epilogue_begin, out)
}

// Puts what holds on, where it changes.
#[tactic(auto, unfolding(crate::specs::RowPieces::changes))]
fn encode_changes(
    out: &mut Vec<u8>,
    version: u16,
    previous: &LineRow,
    row: &LineRow,
) -> Result<(), Error>
    ensures ok { OnOk result (out.new.items ≡ out.old.items
        ++ instructions_bytes (changes version previous.now row.now)) }
    ensures refusal { IfErr result (λ e. e ≡ Memory) }
{
    let file = row.file.raw(version);
    let previous_file = previous.file.raw(version);
    let turned = row.is_statement != previous.is_statement;
    LineInstruction::NegateStatement.encode_if(turned, out)?;
    LineInstruction::SetFile(file).encode_if(file != previous_file, out)?;
    LineInstruction::SetColumn(row.column).encode_if(row.column != previous.column, out)?;
    LineInstruction::SetIsa(row.isa).encode_if(row.isa != previous.isa, out)
}

// Whether a special opcode can move the line that far.
fn special_moves(encoding: LineEncoding, lines: i64) -> bool
    ensures { result ≡ is_special encoding lines }
{
    let base = i64::from(encoding.line_base);
    let end = base + i64::from(encoding.line_range);
    base <= lines && lines < end
}

// How far above the line base the lines are that a special opcode moves.
fn step_of(rules: LineRules, lines: i64) -> u64
    requires { IsBuildable rules }
    ensures value { result ≡ line_step rules.line_encoding lines }
    ensures low { result < rules.line_encoding.line_range }
{
    let encoding = rules.line_encoding;
    let left = if special_moves(encoding, lines) {
        lines
    } else {
        0
    };
    (left - i64::from(encoding.line_base)).unsigned_abs()
}

// The most operations by which a special opcode with this step of lines advances.
fn room_of(rules: LineRules, step: u64) -> u64
    requires buildable { IsBuildable rules }
    requires low { step < rules.line_encoding.line_range }
    ensures { result ≡ room rules.line_encoding step }
{
    (242 - step) / u64::from(rules.line_encoding.line_range)
}

// Puts what moves the address before a special opcode, and answers the operations that are left to
// it.
fn encode_advance(
    out: &mut Vec<u8>,
    rules: LineRules,
    step: u64,
    operations: u64,
) -> Result<u64, Error>
    requires buildable { IsBuildable rules }
    requires low { step < rules.line_encoding.line_range }
    ensures ok { OnOk result (out.new.items ≡ out.old.items
        ++ instructions_bytes (advance rules.line_encoding step operations)) }
    ensures left { IfOk result (λ left. left ≡ opcode_operations rules.line_encoding step
        operations) }
    ensures fits { IfOk result (λ left. left ≤ room rules.line_encoding step) }
    ensures refusal { IfErr result (λ e. e ≡ Memory) }
{
    let room = room_of(rules, step);
    let most = 242 / u64::from(rules.line_encoding.line_range);
    if operations <= room {
        Ok(operations)
    } else if most <= operations && operations - most <= room {
        LineInstruction::ConstAddPc.encode(out)?;
        Ok(operations - most)
    } else {
        LineInstruction::AdvancePc(operations).encode(out)?;
        Ok(0)
    }
}

// The special opcode of a step of lines and a number of operations.
fn opcode_of(rules: LineRules, step: u64, operations: u64) -> u8
    requires buildable { IsBuildable rules }
    requires low { step < rules.line_encoding.line_range }
    requires fits { operations ≤ room rules.line_encoding step }
    ensures { result ≡ 13 + step + rules.line_encoding.line_range * operations }
{
    let range = u64::from(rules.line_encoding.line_range);
    let opcode = u64::from(OPCODE_BASE) + step + range * operations;
    opcode as u8
}

// Puts a move by lines and operations, and the row.
#[tactic(auto, unfolding(crate::specs::RowPieces::moves))]
fn encode_moves(
    out: &mut Vec<u8>,
    rules: LineRules,
    lines: i64,
    operations: u64,
) -> Result<(), Error>
    requires { IsBuildable rules }
    ensures ok { OnOk result (out.new.items ≡ out.old.items
        ++ instructions_bytes (moves rules.line_encoding lines operations)) }
    ensures refusal { IfErr result (λ e. e ≡ Memory) }
{
    let special = special_moves(rules.line_encoding, lines);
    LineInstruction::AdvanceLine(lines).encode_if(!special, out)?;
    let step = step_of(rules, lines);
    let left = encode_advance(out, rules, step, operations)?;
    let opcode = opcode_of(rules, step, left);
    LineInstruction::Special(opcode).encode(out)
}

// How many operations lie between a row and a place that can follow it.
fn operations_from(rules: LineRules, previous: &LineRow, offset: u64, op_index: u64) -> u64
    requires buildable { IsBuildable rules }
    requires follows { can_place rules previous.now offset op_index ≡ true }
    ensures { result ≡ operations_between rules previous.now offset op_index }
{
    let encoding = rules.line_encoding;
    let bytes = offset - previous.address_offset;
    let instructions = bytes / u64::from(encoding.minimum_instruction_length);
    let operations = instructions * u64::from(encoding.maximum_operations_per_instruction);
    operations + op_index - previous.op_index
}

/// Puts the bytes of a row after another one.
#[tactic(auto, unfolding(crate::specs::RowPieces::row_piece))]
pub fn encode_row(
    out: &mut Vec<u8>,
    rules: LineRules,
    previous: &LineRow,
    row: &LineRow,
) -> Result<(), Error>
    requires buildable { IsBuildable rules }
    requires follows { can_place rules previous.now row.now.address_offset row.now.op_index ≡ true }
    requires low { previous.now.line < 2 ^ 63 }
    requires high { row.now.line < 2 ^ 63 }
    ensures ok { OnOk result (out.new.items ≡ out.old.items
        ++ instructions_bytes (row_piece rules previous.now row.now)) }
    ensures refusal { IfErr result (λ e. e ≡ Memory) }
{
    encode_flags(out, row)?;
    encode_changes(out, rules.encoding.version, previous, row)?;
    let operations = operations_from(rules, previous, row.address_offset, row.op_index);
    let lines = row.line as i64 - previous.line as i64;
    encode_moves(out, rules, lines, operations)
}

/// Puts the bytes of the end of a sequence after a row.
#[tactic(auto, unfolding(crate::specs::RowPieces::end_piece))]
pub fn encode_end(
    out: &mut Vec<u8>,
    rules: LineRules,
    previous: &LineRow,
    offset: u64,
    op_index: u64,
) -> Result<(), Error>
    requires buildable { IsBuildable rules }
    requires follows { can_place rules previous.now offset op_index ≡ true }
    ensures ok { OnOk result (out.new.items ≡ out.old.items
        ++ instructions_bytes (end_piece rules previous.now offset op_index)) }
    ensures refusal { IfErr result (λ e. e ≡ Memory) }
{
    let operations = operations_from(rules, previous, offset, op_index);
    LineInstruction::AdvancePc(operations).encode_if(operations != 0, out)?;
    LineInstruction::EndSequence.encode(out)
}
