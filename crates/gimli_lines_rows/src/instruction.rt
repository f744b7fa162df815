use gimli_lines_header::FileEntry;
use gimli_lines_machine::{DwLne, DwLns, Reader};

/// An instruction of a line number program (DWARF 5, 6.2.5).
#[derive(Drop)]
pub enum LineInstruction<R: Reader> {
    // ---- special opcodes (6.2.5.1)
    /// Moves the address and the line as the opcode says, and gives a row.
    Special(u8),
    // ---- standard opcodes (6.2.5.2)
    /// Gives a row.
    Copy,
    /// Moves the address by a number of operations.
    AdvancePc(u64),
    /// Moves the line by a number of lines.
    AdvanceLine(i64),
    /// Sets the file to the one of a number.
    SetFile(u64),
    /// Sets the column, 0 for the left edge.
    SetColumn(u64),
    /// Turns `is_stmt`.
    NegateStatement,
    /// Sets `basic_block`.
    SetBasicBlock,
    /// Moves the address as special opcode 255 would.
    ConstAddPc,
    /// Moves the address by a number of bytes, to an instruction's first operation.
    FixedAddPc(u16),
    /// Sets `prologue_end`.
    SetPrologueEnd,
    /// Sets `epilogue_begin`.
    SetEpilogueBegin,
    /// Sets the instruction set.
    SetIsa(u64),
    /// An opcode below the header's `opcode_base` that the standard doesn't name, without operands.
    UnknownStandard0(DwLns),
    /// One with an operand.
    UnknownStandard1(DwLns, u64),
    /// One with several operands, each an unsigned LEB128 number.
    UnknownStandardN(DwLns, R),
    // ---- extended opcodes (6.2.5.3)
    /// Gives a row at the first address after a sequence, and begins the next one.
    EndSequence,
    /// Sets the address.
    SetAddress(u64),
    /// Defines a further file, up to version 4.
    DefineFile(FileEntry<R>),
    /// Sets the discriminator.
    SetDiscriminator(u64),
    /// An opcode that the standard doesn't name, with the bytes after it.
    UnknownExtended(DwLne, R),
}
