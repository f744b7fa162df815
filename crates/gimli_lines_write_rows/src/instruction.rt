//! The instructions that are written for rows, as bytes. For what the opcodes are, `parsing` of
//! `gimli_lines_rows` is to be read first; the bytes here are those of `LineInstructionBytes`.

ghost use Rattle.std.specs.Prelude.{◌≡◌, ◌+◌, ◌++◌, ◌∷◌, [], length, OnOk, IfErr};
ghost use Rattle.gimli_lines_write_bytes.specs.Spelling.{unsigned_string, signed_string};
ghost use Rattle.gimli_lines_write_bytes.specs.declared.error.Error.TheVariants.{Memory};
ghost use Rattle.gimli_lines_write_rows.specs.LineInstructionBytes.{instruction_bytes, instructions_bytes};
ghost use Rattle.gimli_lines_write_rows.specs.RowPieces.{when};

use gimli_lines_write_bytes::{
    DW_LNE_end_sequence, DW_LNE_set_discriminator, DW_LNS_advance_line, DW_LNS_advance_pc,
    DW_LNS_const_add_pc, DW_LNS_negate_stmt, DW_LNS_set_basic_block, DW_LNS_set_column,
    DW_LNS_set_epilogue_begin, DW_LNS_set_file, DW_LNS_set_isa, DW_LNS_set_prologue_end, Error,
    Leb128,
};

/// An instruction that holds no address (DWARF 5, 6.2.5).
#[derive(Clone, Copy, Debug, PartialEq, Eq)]
pub enum LineInstruction {
    Special(u8),
    AdvancePc(u64),
    AdvanceLine(i64),
    SetFile(u64),
    SetColumn(u64),
    NegateStatement,
    SetBasicBlock,
    ConstAddPc,
    SetPrologueEnd,
    SetEpilogueBegin,
    SetIsa(u64),
    EndSequence,
    SetDiscriminator(u64),
}

// Puts bytes after others.
fn put(out: &mut Vec<u8>, bytes: &[u8]) -> Result<(), Error>
    ensures ok { OnOk result (out.new.items ≡ out.old.items ++ bytes.now) }
    ensures refusal { IfErr result (λ e. e ≡ Memory) }
{
    out.extend_from_slice(bytes)?;
    Ok(())
}

// Puts an opcode and its operand after other bytes.
fn put_unsigned(out: &mut Vec<u8>, opcode: u8, operand: u64) -> Result<(), Error>
    ensures ok { OnOk result (out.new.items ≡ out.old.items ++ opcode ∷ unsigned_string operand) }
    ensures refusal { IfErr result (λ e. e ≡ Memory) }
{
    out.push(opcode)?;
    put(out, Leb128::unsigned(operand).bytes())
}

impl LineInstruction {
    /// Puts the instruction's bytes after others.
    pub fn encode(self, out: &mut Vec<u8>) -> Result<(), Error>
        ensures ok { OnOk result (out.new.items ≡ out.old.items ++ instruction_bytes self) }
        ensures refusal { IfErr result (λ e. e ≡ Memory) }
    {
        match self {
            LineInstruction::Special(opcode) => put(out, &[opcode]),
            LineInstruction::AdvancePc(n) => put_unsigned(out, DW_LNS_advance_pc.0, n),
            LineInstruction::AdvanceLine(n) => {
                out.push(DW_LNS_advance_line.0)?;
                put(out, Leb128::signed(n).bytes())
            }
            LineInstruction::SetFile(n) => put_unsigned(out, DW_LNS_set_file.0, n),
            LineInstruction::SetColumn(n) => put_unsigned(out, DW_LNS_set_column.0, n),
            LineInstruction::NegateStatement => put(out, &[DW_LNS_negate_stmt.0]),
            LineInstruction::SetBasicBlock => put(out, &[DW_LNS_set_basic_block.0]),
            LineInstruction::ConstAddPc => put(out, &[DW_LNS_const_add_pc.0]),
            LineInstruction::SetPrologueEnd => put(out, &[DW_LNS_set_prologue_end.0]),
            LineInstruction::SetEpilogueBegin => put(out, &[DW_LNS_set_epilogue_begin.0]),
            LineInstruction::SetIsa(n) => put_unsigned(out, DW_LNS_set_isa.0, n),
            LineInstruction::EndSequence => put(out, &[0, 1, DW_LNE_end_sequence.0]),
            LineInstruction::SetDiscriminator(n) => put_discriminator(out, n),
        }
    }

    /// The same where a test holds.
    pub fn encode_if(self, condition: bool, out: &mut Vec<u8>) -> Result<(), Error>
        ensures ok { OnOk result (out.new.items ≡ out.old.items
            ++ instructions_bytes (when condition self)) }
        ensures refusal { IfErr result (λ e. e ≡ Memory) }
    {
        if condition {
            self.encode(out)?;
        }
        Ok(())
    }
}

// Puts an extended opcode with its operand after other bytes.
fn put_discriminator(out: &mut Vec<u8>, discriminator: u64) -> Result<(), Error>
    ensures ok { OnOk result (out.new.items ≡ out.old.items ++ 0
        ∷ (1 + length (unsigned_string discriminator)) ∷ DW_LNE_set_discriminator.0
        ∷ unsigned_string discriminator) }
    ensures refusal { IfErr result (λ e. e ≡ Memory) }
{
    let operand = Leb128::unsigned(discriminator);
    put(
        out,
        &[0, 1 + operand.len() as u8, DW_LNE_set_discriminator.0],
    )?;
    put(out, operand.bytes())
}
