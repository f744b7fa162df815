//! Steps of a program whose instructions have numbers as operands: each is read and executed at
//! once, on borrowed bytes. All opcodes are in `parsing`, and what they do in `numeric`: these are
//! to be read first. Here the same is spelled again for speed; what isn't spelled here, a long
//! number, or a refusal, is left to them.

ghost use Rattle.std.specs.Prelude.{◌≡◌, ℕ, ◌<◌, ◌-◌, not, Bool, MatchOption, Ok, slice_index, if◌then◌else◌};
ghost use Rattle.gimli_lines_machine.specs.NumberParsers.{fixed};
ghost use Rattle.gimli_lines_header.specs.LineFiles.{file_in};
ghost use Rattle.gimli_lines_machine.specs.Decoding.{unknown_instruction, standard_instruction, extended_instruction, instruction_with};
ghost use Rattle.gimli_lines_machine.specs.Machine.{after_row, after_operations, after_bytes, with_line, line_after, operation_advance, line_advance, IsSound};
ghost use Rattle.gimli_lines_machine.specs.declared.rules.LineRules.{LineRules};
ghost use Rattle.gimli_lines_machine.specs.declared.registers.Registers.{Registers};
ghost use Rattle.gimli_lines_rows.specs.ProgramInstructions.{rules_of};
ghost use Rattle.gimli_lines_rows.specs.RowSinks.{GivesOnTheWay, GivesRow};
ghost use Rattle.gimli_lines_rows.specs.NumericSteps.{ExecutesAtOnce, StepsAtOnce, RunsToRow, effect_of, numeric_effect, rows_at};

use crate::numbers::{read_signed, read_unsigned};
use crate::parsing::operand_count;
use crate::program_rules::ProgramRules;
use crate::row::LineRow;
use crate::sink::RowSink;
use gimli_core_readers::Endianity;
use gimli_lines_header::LineProgramHeader;
use gimli_lines_machine::{
    DW_LNE_end_sequence, DW_LNE_set_address, DW_LNE_set_discriminator, DW_LNS_advance_line,
    DW_LNS_advance_pc, DW_LNS_const_add_pc, DW_LNS_copy, DW_LNS_fixed_advance_pc,
    DW_LNS_negate_stmt, DW_LNS_set_basic_block, DW_LNS_set_column, DW_LNS_set_epilogue_begin,
    DW_LNS_set_file, DW_LNS_set_isa, DW_LNS_set_prologue_end, DwLne, DwLns, EndianSlice, Error,
    LineRules, Reader, ReaderOffset, Registers,
};

// Moves the address and the operation by a number of operations; refused, nothing changes.
#[inline(always)]
fn advance(registers: &mut Registers, rules: &ProgramRules, operations: u64) -> Option<()>
    ensures { MatchOption result (registers.new ≡ registers.old)
        (λ _. after_operations rules.now operations registers.old ≡ Ok registers.new) }
{
    match registers.advance_operations(rules.line_rules(), operations) {
        Ok(()) => Some(()),
        Err(_) => None,
    }
}

// Moves the address and the line as a special opcode says; refused, nothing changes.
#[inline(always)]
fn advance_both(registers: &mut Registers, rules: &ProgramRules, opcode: u8) -> Option<()>
    ensures { MatchOption result (registers.new ≡ registers.old)
        (λ _. after_operations rules.now (operation_advance rules.now opcode)
        (with_line (line_after registers.old.line (line_advance rules.now opcode)) registers.old)
        ≡ Ok registers.new) }
{
    advance(registers, rules, rules.operations_of(opcode))?;
    registers.advance_line(rules.lines_of(opcode));
    Some(())
}

// Reads a number of bytes and moves the address by it; refused, the registers don't change.
#[inline(always)]
fn advance_fixed<E: Endianity>(
    input: &mut EndianSlice<'_, E>,
    registers: &mut Registers,
    rules: LineRules,
) -> Option<()>
    requires { IsSound rules }
    ensures { MatchOption result (registers.new ≡ registers.old) (λ _. (n : ℕ)
        × (fixed 2 input.old ≡ Ok (n, input.new))
        × (after_bytes rules n registers.old ≡ Ok registers.new)) }
{
    let Ok(bytes) = input.read_u16() else {
        return None;
    };
    match registers.advance_bytes(rules, bytes) {
        Ok(()) => Some(()),
        Err(_) => None,
    }
}

// Reads the operands of a standard opcode and executes it, and says whether it gives a row; none,
// and the registers don't change, where it has several operands, a long one, or is refused.
#[tactic(auto, unfolding(gimli_lines_machine::specs::Decoding::standard_instruction))]
#[inline(always)]
fn run_standard<R: Reader>(
    input: &mut EndianSlice<'_, R::Endian>,
    registers: &mut Registers,
    header: &LineProgramHeader<R>,
    rules: &ProgramRules,
    opcode: u8,
) -> Option<bool>
    requires opcode { 0 < opcode }
    ensures { ExecutesAtOnce result registers.old registers.new input.new
        (effect_of rules.now registers.old
        (standard_instruction header.now.standard_opcode_lengths.bytes opcode input.old)) }
{
    match DwLns(opcode) {
        DW_LNS_copy => return Some(true),
        DW_LNS_advance_pc => advance(registers, rules, read_unsigned(input)?)?,
        DW_LNS_advance_line => registers.advance_line(read_signed(input)?),
        DW_LNS_set_file => registers.file = read_unsigned(input)?,
        DW_LNS_set_column => registers.column = read_unsigned(input)?,
        DW_LNS_negate_stmt => registers.is_stmt = !registers.is_stmt,
        DW_LNS_set_basic_block => registers.basic_block = true,
        DW_LNS_const_add_pc => advance(registers, rules, rules.operations_of(255))?,
        DW_LNS_fixed_advance_pc => advance_fixed(input, registers, rules.line_rules())?,
        DW_LNS_set_prologue_end => registers.prologue_end = true,
        DW_LNS_set_epilogue_begin => registers.epilogue_begin = true,
        DW_LNS_set_isa => registers.isa = read_unsigned(input)?,
        _ => return skip_unknown(input, header, opcode),
    }
    Some(false)
}

// The operands of an opcode that the standard doesn't name, where it has at most one: it does
// nothing.
#[inline(always)]
fn skip_unknown<R: Reader>(
    input: &mut EndianSlice<'_, R::Endian>,
    header: &LineProgramHeader<R>,
    opcode: u8,
) -> Option<bool>
    requires { 0 < opcode }
    ensures { (rules : LineRules) → (r : Registers) → ExecutesAtOnce result r r input.new
        (effect_of rules r (unknown_instruction opcode
        (slice_index header.now.standard_opcode_lengths.bytes (opcode - 1)) input.old)) }
{
    let counts = header.standard_opcode_lengths().as_bytes();
    match operand_count(counts, opcode) {
        0 => {}
        1 => {
            read_unsigned(input)?;
        }
        _ => return None,
    }
    Some(false)
}

// The same of an extended opcode, after an opcode 0; none where its operands aren't a number.
#[tactic(auto, unfolding(crate::proofs::Unfoldings::all_of_extended))]
#[inline(always)]
fn run_extended<R: Reader>(
    input: &mut EndianSlice<'_, R::Endian>,
    registers: &mut Registers,
    rules: LineRules,
) -> Option<bool>
    requires { IsSound rules }
    ensures { ExecutesAtOnce result registers.old registers.new input.new
        (effect_of rules registers.old
        (extended_instruction file_in R.Offset.limit rules input.old)) }
{
    let Ok(length) = R::Offset::from_u64(read_unsigned(input)?) else {
        return None;
    };
    let length = length.into_u64() as usize;
    if input.slice().len() < length {
        return None;
    }
    let mut bytes = input.range_to(..length);
    input.advance(length);
    let Ok(opcode) = bytes.read_u8() else {
        return None;
    };
    match DwLne(opcode) {
        DW_LNE_end_sequence => {
            registers.end_sequence = true;
            return Some(true);
        }
        DW_LNE_set_address => {
            let Ok(address) = bytes.read_address(rules.encoding.address_size) else {
                return None;
            };
            registers.set_address(rules, address);
        }
        DW_LNE_set_discriminator => registers.discriminator = read_unsigned(&mut bytes)?,
        _ => return None,
    }
    Some(false)
}

// Reads the instruction at the start and executes it, and says whether it gives a row; none where
// its operands aren't numbers.
#[tactic(auto, unfolding(gimli_lines_machine::specs::Decoding::instruction_with))]
#[inline(always)]
fn run_instruction<R: Reader>(
    input: &mut EndianSlice<'_, R::Endian>,
    registers: &mut Registers,
    header: &LineProgramHeader<R>,
    rules: &ProgramRules,
) -> Option<bool>
    ensures { ExecutesAtOnce result registers.old registers.new input.new
        (effect_of rules.now registers.old (instruction_with file_in R.Offset.limit rules.now
        header.now.standard_opcode_lengths.bytes input.old)) }
{
    let Ok(opcode) = input.read_u8() else {
        return None;
    };
    if opcode == 0 {
        return run_extended::<R>(input, registers, rules.line_rules());
    }
    if opcode < rules.line_rules().opcode_base {
        return run_standard(input, registers, header, rules, opcode);
    }
    advance_both(registers, rules, opcode)?;
    Some(true)
}

// The same, where the instruction isn't refused; else nothing changes.
#[inline(always)]
fn run_next<R: Reader>(
    bytes: &mut EndianSlice<'_, R::Endian>,
    registers: &mut Registers,
    header: &LineProgramHeader<R>,
    rules: &ProgramRules,
) -> Option<bool>
    ensures { MatchOption result ((bytes.new ≡ bytes.old) × (registers.new ≡ registers.old))
        (λ b. effect_of rules.now registers.old (instruction_with file_in R.Offset.limit rules.now
        header.now.standard_opcode_lengths.bytes bytes.old)
        ≡ Ok (numeric_effect b registers.new, bytes.new)) }
{
    let mut input = bytes.copy().ok()?;
    let gives_row = run_instruction(&mut input, registers, header, rules)?;
    *bytes = input;
    Some(gives_row)
}

// Takes the step of the next instruction, where its operands are numbers and it isn't refused, and
// says whether it shows a row. Else nothing changes.
#[inline(always)]
fn step_at_once<R: Reader>(
    bytes: &mut EndianSlice<'_, R::Endian>,
    registers: &mut Registers,
    row: &mut LineRow,
    header: &LineProgramHeader<R>,
    rules: &ProgramRules,
) -> Option<bool>
    requires { rules.now ≡ rules_of header.now }
    ensures { StepsAtOnce R.Offset.limit header.now result registers.old row.old bytes.old
        registers.new row.new bytes.new }
{
    let gives_row = run_next(bytes, registers, header, rules)?;
    if !gives_row {
        return Some(false);
    }
    Some(end_row(rules.line_rules(), registers, row))
}

// Takes steps up to the next row that is shown, and says whether there is one; else up to the first
// instruction whose operands aren't numbers or that is refused, or to the end.
#[inline(always)]
pub(crate) fn run_to_row<R: Reader>(
    bytes: &mut EndianSlice<'_, R::Endian>,
    registers: &mut Registers,
    row: &mut LineRow,
    header: &LineProgramHeader<R>,
    rules: &ProgramRules,
) -> bool
    requires { rules.now ≡ rules_of header.now }
    ensures { (takes_files : Bool) → RunsToRow R.Offset.limit result
        (rows_at header.now takes_files registers.old row.old bytes.old)
        (rows_at header.now takes_files registers.new row.new bytes.new) }
{
    while let Some(is_shown) = step_at_once(bytes, registers, row, header, rules) {
        if is_shown {
            return true;
        }
    }
    false
}

// Takes steps and gives the rows that are shown to a sink, up to the first instruction whose
// operands aren't numbers or that is refused, to the end, or to a row that the sink refuses.
#[inline(always)]
pub(crate) fn run_into<R: Reader, S: RowSink>(
    bytes: &mut EndianSlice<'_, R::Endian>,
    registers: &mut Registers,
    row: &mut LineRow,
    header: &LineProgramHeader<R>,
    rules: &ProgramRules,
    sink: &mut S,
) -> Result<(), Error>
    requires { rules.now ≡ rules_of header.now }
    ensures { (takes_files : Bool) → GivesOnTheWay R.Offset.limit S.form S.HasTaken result
        (rows_at header.now takes_files registers.old row.old bytes.old)
        (rows_at header.now takes_files registers.new row.new bytes.new) sink.old sink.new }
{
    // In a place of its own a row that the sink takes needs no memory.
    let mut shown = *row;
    while let Some(gives_row) = run_next(bytes, registers, header, rules) {
        if gives_row {
            match give_row(rules.line_rules(), registers, &mut shown, sink) {
                Ok(()) => {}
                Err(refusal) => {
                    *row = shown;
                    return Err(refusal);
                }
            }
        }
    }
    Ok(())
}

// Ends a row, and gives it to a sink where it's shown: then it is the last row. The sink takes it
// before the registers are cleared, so that they aren't held twice.
#[inline(always)]
fn give_row<S: RowSink>(
    rules: LineRules,
    registers: &mut Registers,
    row: &mut LineRow,
    sink: &mut S,
) -> Result<(), Error>
    ensures given { GivesRow S.form S.HasTaken result registers.old sink.old sink.new }
    ensures row { row.new ≡ (if not registers.old.is_hidden then registers.old else row.old) }
    ensures registers { registers.new ≡ after_row rules registers.old }
{
    if registers.is_hidden {
        registers.clear(rules);
        return Ok(());
    }
    *row = LineRow::of(*registers);
    // Each case clears them, so that nothing asks again whether the sink has taken the row.
    match sink.take(row) {
        Ok(()) => {
            registers.clear(rules);
            Ok(())
        }
        Err(error) => {
            registers.clear(rules);
            Err(error)
        }
    }
}

// Ends a row, and says whether it's shown: then it is the last row.
#[inline(always)]
pub(crate) fn end_row(rules: LineRules, registers: &mut Registers, row: &mut LineRow) -> bool
    ensures shown { result ≡ not registers.old.is_hidden }
    ensures row { row.new ≡ (if not registers.old.is_hidden then registers.old else row.old) }
    ensures registers { registers.new ≡ after_row rules registers.old }
{
    let is_shown = !registers.is_hidden;
    if is_shown {
        *row = LineRow::of(*registers);
    }
    registers.clear(rules);
    is_shown
}
