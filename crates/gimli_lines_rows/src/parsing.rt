//! How an instruction is read: all opcodes and their operands. Of the code that spells opcodes this
//! is to be read first; the definition is `Decoding` of `gimli_lines_machine`.

ghost use Rattle.std.specs.Prelude.{◌≡◌, ◌<◌, ◌-◌, ◌≤◌, slice_index, IfOk, IfSome, IsTrue, Ok};
ghost use Rattle.gimli_lines_machine.specs.Calls.{ReturnsAs, ReturnsAsOrNoMemory};
ghost use Rattle.gimli_lines_machine.specs.View.{after, bytes_left};
ghost use Rattle.gimli_lines_machine.specs.Parsers.{value_of};
ghost use Rattle.gimli_lines_machine.specs.Repetition.{times};
ghost use Rattle.gimli_lines_machine.specs.NumberParsers.{unsigned};
ghost use Rattle.gimli_lines_header.specs.LineFiles.{file_in};
ghost use Rattle.gimli_lines_machine.specs.Decoding.{span_of, unknown_instruction, standard_instruction, extended_instruction, extended_in, extended_of, instruction_with};
ghost use Rattle.gimli_lines_rows.specs.ProgramInstructions.{rules_of, instruction_in};
ghost use Rattle.gimli_lines_rows.specs.InstructionViews.{line_instruction};
ghost use Rattle.gimli_lines_rows.specs.NumericInstructions.{numeric_instruction, ReturnsNumericOr, unknown_with_bytes, extended_with_bytes};

use crate::execution::rules_of;
use crate::instruction::LineInstruction;
use crate::numeric::{NumericInstruction, line_instruction_of};
use gimli_lines_header::{FileEntry, LineProgramHeader};
use gimli_lines_machine::{
    DW_LNE_define_file, DW_LNE_end_sequence, DW_LNE_set_address, DW_LNE_set_discriminator,
    DW_LNS_advance_line, DW_LNS_advance_pc, DW_LNS_const_add_pc, DW_LNS_copy,
    DW_LNS_fixed_advance_pc, DW_LNS_negate_stmt, DW_LNS_set_basic_block, DW_LNS_set_column,
    DW_LNS_set_epilogue_begin, DW_LNS_set_file, DW_LNS_set_isa, DW_LNS_set_prologue_end, DwLne,
    DwLns, EndianSlice, Error, LineRules, Reader, ReaderOffset,
};

// ---- instructions whose operands are numbers

// The instruction at the start of borrowed bytes and its length, where it can be read and its
// operands are numbers; its lengths are offsets as the reader `R` has them.
#[tactic(auto, using(crate::proofs::NumericSteps::bytes_taken))]
pub(crate) fn measure_numeric<R: Reader>(
    mut bytes: EndianSlice<'_, R::Endian>,
    header: &LineProgramHeader<R>,
) -> Option<(NumericInstruction, usize)>
    ensures value { IfSome result (λ p. instruction_in R.Offset.limit header.now bytes.entry
        ≡ Ok (numeric_instruction p.0, after p.1 bytes.entry)) }
    ensures length { IfSome result (λ p. p.1 ≤ bytes_left bytes.entry) }
{
    let before = bytes.slice().len();
    let counts = header.standard_opcode_lengths().as_bytes();
    match parse_numeric::<R>(&mut bytes, rules_of(header), counts) {
        Ok(Some(instruction)) => Some((instruction, before - bytes.slice().len())),
        _ => None,
    }
}

// The same, read.
#[tactic(auto, unfolding(gimli_lines_machine::specs::Decoding::instruction_with))]
fn parse_numeric<R: Reader>(
    input: &mut EndianSlice<'_, R::Endian>,
    rules: LineRules,
    counts: &[u8],
) -> Result<Option<NumericInstruction>, Error>
    ensures { IfOk result (λ found. IfSome found (λ i.
        instruction_with file_in R.Offset.limit rules counts.now input.old
        ≡ Ok (numeric_instruction i, input.new))) }
{
    let opcode = input.read_u8()?;
    // What a call returns is moved out of its place in memory: a special opcode, which is the
    // commonest, is written to none.
    Ok(if opcode == 0 {
        parse_numeric_extended::<R>(input, rules)?
    } else if opcode < rules.opcode_base {
        numeric_standard(input, counts, opcode)?
    } else {
        Some(NumericInstruction::Special(opcode))
    })
}

// The same, after an opcode 0: an extended opcode and its operands, after their length.
#[tactic(auto, unfolding(crate::proofs::Unfoldings::all_of_extended))]
pub(crate) fn parse_numeric_extended<R: Reader>(
    input: &mut EndianSlice<'_, R::Endian>,
    rules: LineRules,
) -> Result<Option<NumericInstruction>, Error>
    ensures { IfOk result (λ found. IfSome found (λ i. (extended_instruction file_in R.Offset.limit
        rules input.old) ≡ Ok (numeric_instruction i, input.new))) }
{
    let length = R::Offset::from_u64(input.read_uleb128()?)?;
    let length = length.into_u64() as usize;
    if input.slice().len() < length {
        return Err(Error::UnexpectedEof(input.offset_id()));
    }
    let mut bytes = input.range_to(..length);
    input.advance(length);
    let opcode = DwLne(bytes.read_u8()?);
    numeric_extended(&mut bytes, rules, opcode)
}

// The operands of a standard opcode, where they are numbers.
#[tactic(auto, unfolding(gimli_lines_machine::specs::Decoding::standard_instruction))]
fn numeric_standard<R: Reader>(
    input: &mut R,
    counts: &[u8],
    opcode: u8,
) -> Result<Option<NumericInstruction>, Error>
    requires { 0 < opcode }
    ensures { ReturnsNumericOr result (R.view input.new)
        (standard_instruction counts.now opcode (R.view input.old))
        (unknown_with_bytes opcode (slice_index counts.now (opcode - 1))) }
{
    Ok(Some(match DwLns(opcode) {
        DW_LNS_copy => NumericInstruction::Copy,
        DW_LNS_advance_pc => NumericInstruction::AdvancePc(input.read_uleb128()?),
        DW_LNS_advance_line => NumericInstruction::AdvanceLine(input.read_sleb128()?),
        DW_LNS_set_file => NumericInstruction::SetFile(input.read_uleb128()?),
        DW_LNS_set_column => NumericInstruction::SetColumn(input.read_uleb128()?),
        DW_LNS_negate_stmt => NumericInstruction::NegateStatement,
        DW_LNS_set_basic_block => NumericInstruction::SetBasicBlock,
        DW_LNS_const_add_pc => NumericInstruction::ConstAddPc,
        DW_LNS_fixed_advance_pc => NumericInstruction::FixedAddPc(input.read_u16()?),
        DW_LNS_set_prologue_end => NumericInstruction::SetPrologueEnd,
        DW_LNS_set_epilogue_begin => NumericInstruction::SetEpilogueBegin,
        DW_LNS_set_isa => NumericInstruction::SetIsa(input.read_uleb128()?),
        _ => return numeric_unknown(input, opcode, operand_count(counts, opcode)),
    }))
}

// The operands of an opcode that the standard doesn't name, where it has at most one.
fn numeric_unknown<R: Reader>(
    input: &mut R,
    opcode: u8,
    count: u8,
) -> Result<Option<NumericInstruction>, Error>
    ensures { ReturnsNumericOr result (R.view input.new)
        (unknown_instruction opcode count (R.view input.old)) (unknown_with_bytes opcode count) }
{
    let opcode = DwLns(opcode);
    Ok(match count {
        0 => Some(NumericInstruction::UnknownStandard0(opcode)),
        1 => Some(NumericInstruction::UnknownStandard1(opcode, input.read_uleb128()?)),
        _ => None,
    })
}

// How many operands the header gives to a standard opcode.
pub(crate) fn operand_count(counts: &[u8], opcode: u8) -> u8
    requires { 0 < opcode }
    ensures { result ≡ slice_index counts.now (opcode - 1) }
{
    counts.get(usize::from(opcode - 1)).copied().unwrap_or(0)
}

// The operands of an extended opcode, where they are numbers.
fn numeric_extended<R: Reader>(
    bytes: &mut R,
    rules: LineRules,
    opcode: DwLne,
) -> Result<Option<NumericInstruction>, Error>
    ensures { ReturnsNumericOr result (R.view bytes.new)
        (extended_of file_in rules opcode.0 (R.view bytes.old))
        (extended_with_bytes rules opcode.0) }
{
    Ok(Some(match opcode {
        DW_LNE_end_sequence => NumericInstruction::EndSequence,
        DW_LNE_set_address => {
            NumericInstruction::SetAddress(bytes.read_address(rules.encoding.address_size)?)
        }
        DW_LNE_set_discriminator => NumericInstruction::SetDiscriminator(bytes.read_uleb128()?),
        _ => return Ok(None),
    }))
}

// ---- all instructions

// The instruction at the start. Takes memory only where a part of the reader does.
#[tactic(auto, unfolding(gimli_lines_machine::specs::Decoding::instruction_with))]
pub(crate) fn parse_instruction<R: Reader>(
    input: &mut R,
    header: &LineProgramHeader<R>,
) -> Result<LineInstruction<R>, Error>
    ensures value { ReturnsAsOrNoMemory (λ i. (line_instruction R.view i, R.view input.new)) result
        (instruction_in R.Offset.limit header.now (R.view input.old)) }
    ensures free { IsTrue R.copies_freely
        → ReturnsAs (λ i. (line_instruction R.view i, R.view input.new)) result
        (instruction_in R.Offset.limit header.now (R.view input.old)) }
{
    let opcode = input.read_u8()?;
    if opcode == 0 {
        return parse_extended(input, header);
    }
    if opcode < header.opcode_base() {
        parse_standard(input, header, opcode)
    } else {
        Ok(LineInstruction::Special(opcode))
    }
}

// The operands of a standard opcode.
fn parse_standard<R: Reader>(
    input: &mut R,
    header: &LineProgramHeader<R>,
    opcode: u8,
) -> Result<LineInstruction<R>, Error>
    requires { 0 < opcode }
    ensures value { ReturnsAsOrNoMemory (λ i. (line_instruction R.view i, R.view input.new)) result
        (standard_instruction header.now.standard_opcode_lengths.bytes opcode (R.view input.old)) }
    ensures free { IsTrue R.copies_freely
        → ReturnsAs (λ i. (line_instruction R.view i, R.view input.new)) result
        (standard_instruction header.now.standard_opcode_lengths.bytes opcode (R.view input.old)) }
{
    let counts = header.standard_opcode_lengths().as_bytes();
    if let Some(instruction) = numeric_standard(input, counts, opcode)? {
        return Ok(line_instruction_of(instruction));
    }
    let operands = split_operands(input, operand_count(counts, opcode))?;
    Ok(LineInstruction::UnknownStandardN(DwLns(opcode), operands))
}

// The bytes of `count` operands.
fn split_operands<R: Reader>(input: &mut R, count: u8) -> Result<R, Error>
    ensures value { ReturnsAsOrNoMemory (λ operands. (R.view operands, R.view input.new)) result
        (span_of (times count unsigned) (R.view input.old)) }
    ensures free { IsTrue R.copies_freely
        → ReturnsAs (λ operands. (R.view operands, R.view input.new)) result
        (span_of (times count unsigned) (R.view input.old)) }
{
    let mut operands = input.copy()?;
    for _operand in 0..count {
        input.read_uleb128()?;
    }
    let len = input.offset_from(&operands);
    operands.truncate(len)?;
    Ok(operands)
}

// An extended opcode and its operands, after their length.
#[tactic(auto, unfolding(gimli_lines_machine::specs::Decoding::extended_instruction))]
fn parse_extended<R: Reader>(
    input: &mut R,
    header: &LineProgramHeader<R>,
) -> Result<LineInstruction<R>, Error>
    ensures value { ReturnsAsOrNoMemory (λ i. (line_instruction R.view i, R.view input.new)) result
        (extended_instruction file_in R.Offset.limit (rules_of header.now) (R.view input.old)) }
    ensures free { IsTrue R.copies_freely
        → ReturnsAs (λ i. (line_instruction R.view i, R.view input.new)) result
        (extended_instruction file_in R.Offset.limit (rules_of header.now) (R.view input.old)) }
{
    let length = R::Offset::from_u64(input.read_uleb128()?)?;
    let bytes = input.split(length)?;
    parse_extended_in(bytes, header)
}

// An extended opcode and its operands, which need not take all of their bytes.
#[tactic(auto, unfolding(crate::proofs::Unfoldings::all_of_operands))]
fn parse_extended_in<R: Reader>(
    mut bytes: R,
    header: &LineProgramHeader<R>,
) -> Result<LineInstruction<R>, Error>
    ensures value { ReturnsAsOrNoMemory (line_instruction R.view) result
        (value_of (extended_in file_in (rules_of header.now) (R.view bytes))) }
    ensures free { IsTrue R.copies_freely
        → ReturnsAs (line_instruction R.view) result
        (value_of (extended_in file_in (rules_of header.now) (R.view bytes))) }
{
    let opcode = DwLne(bytes.read_u8()?);
    if let Some(instruction) = numeric_extended(&mut bytes, rules_of(header), opcode)? {
        return Ok(line_instruction_of(instruction));
    }
    Ok(match opcode {
        DW_LNE_define_file if header.version() <= 4 => {
            let path = bytes.read_null_terminated_slice()?;
            LineInstruction::DefineFile(FileEntry::parse(&mut bytes, path)?)
        }
        _ => LineInstruction::UnknownExtended(opcode, bytes),
    })
}
