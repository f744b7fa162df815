//! The registers, and what the operations of instructions make of them.

ghost use Rattle.std.specs.Prelude.{◌≡◌, ◌+◌, ◌≤◌, ◌<◌, ◌/◌, ◌%◌, IsTrue};
ghost use Rattle.gimli_core_readers.specs.Calls.{Returns};
ghost use Rattle.gimli_core_readers.specs.NumberParsers.{is_address_size};
ghost use Rattle.gimli_lines_machine.specs.Machine.{start, line_after, line_advance, operation_advance, address_within, after_operations, after_bytes, at_new_address, after_row, with_line, Becomes, IsSound};

use crate::rules::LineRules;
use gimli_core_readers::{Error, greatest_address, least_tombstone};

/// The registers of the state machine (DWARF 5, 6.2.2).
#[derive(Clone, Copy, Debug, PartialEq, Eq, Hash)]
pub struct Registers {
    pub address: u64,
    /// The operation within the instruction at the address.
    pub op_index: u64,
    pub file: u64,
    /// From 1 on; 0 for an address of no line.
    pub line: u64,
    /// From 1 on; 0 for the left edge.
    pub column: u64,
    pub is_stmt: bool,
    pub basic_block: bool,
    pub end_sequence: bool,
    pub prologue_end: bool,
    pub epilogue_begin: bool,
    pub isa: u64,
    pub discriminator: u64,
    /// Rows aren't shown: the last address that was set went back or is a tombstone.
    pub is_hidden: bool,
}

impl Registers {
    /// The registers at the start of a sequence (DWARF 5, table 6.4).
    pub fn start(rules: LineRules) -> Self
        ensures { result ≡ start rules }
    {
        Registers {
            address: 0,
            op_index: 0,
            file: 1,
            line: 1,
            column: 0,
            is_stmt: rules.line_encoding.default_is_stmt,
            basic_block: false,
            end_sequence: false,
            prologue_end: false,
            epilogue_begin: false,
            isa: 0,
            discriminator: 0,
            is_hidden: false,
        }
    }

    /// Moves the line: past 64 bits it wraps, and there is none below 0.
    pub fn advance_line(&mut self, lines: i64)
        ensures { self.new ≡ with_line (line_after self.old.line lines) self.old }
    {
        self.line = line_after(self.line, lines);
    }

    /// Moves the address and the operation by a number of operations (DWARF 5, 6.2.5.1). Refused,
    /// nothing changes.
    pub fn advance_operations(&mut self, rules: LineRules, operations: u64) -> Result<(), Error>
        requires { IsSound rules }
        ensures { Becomes result self.old self.new (after_operations rules operations self.old) }
    {
        if self.is_hidden {
            return Ok(());
        }
        let operations = self.op_index.wrapping_add(operations);
        let maximum = rules.line_encoding.maximum_operations_per_instruction;
        let (instructions, op_index) = whole_instructions(operations, maximum);
        let length = u64::from(rules.line_encoding.minimum_instruction_length);
        let advance = length.wrapping_mul(instructions);
        self.address = sum_within(self.address, advance, rules.encoding.address_size)?;
        self.op_index = op_index;
        Ok(())
    }

    /// Moves the address by a number of bytes. Refused, nothing changes.
    pub fn advance_bytes(&mut self, rules: LineRules, bytes: u16) -> Result<(), Error>
        requires { IsSound rules }
        ensures { Becomes result self.old self.new (after_bytes rules bytes self.old) }
    {
        if self.is_hidden {
            return Ok(());
        }
        self.address = sum_within(self.address, u64::from(bytes), rules.encoding.address_size)?;
        self.op_index = 0;
        Ok(())
    }

    /// Moves the address by the operations of a special opcode.
    pub fn advance_as(&mut self, rules: LineRules, opcode: u8) -> Result<(), Error>
        requires { IsSound rules }
        ensures { Becomes result self.old self.new
            (after_operations rules (operation_advance rules opcode) self.old) }
    {
        let adjusted = opcode.saturating_sub(rules.opcode_base);
        self.advance_operations(rules, u64::from(adjusted / rules.line_encoding.line_range))
    }

    /// Moves the line and the address as a special opcode says (DWARF 5, 6.2.5.1): those below the
    /// first one do as it does. Refused, nothing changes.
    pub fn advance_both(&mut self, rules: LineRules, opcode: u8) -> Result<(), Error>
        requires { IsSound rules }
        ensures { Becomes result self.old self.new
            (after_operations rules (operation_advance rules opcode)
            (with_line (line_after self.old.line (line_advance rules opcode)) self.old)) }
    {
        self.advance_as(rules, opcode)?;
        self.advance_line(lines_of(rules, opcode));
        Ok(())
    }

    /// Sets the address. Where it goes back or is a tombstone, it hides the rows up to the next
    /// one instead.
    pub fn set_address(&mut self, rules: LineRules, address: u64)
        requires { IsSound rules }
        ensures { self.new ≡ at_new_address rules address self.old }
    {
        if address < self.address || least_tombstone(rules.encoding.address_size) <= address {
            self.is_hidden = true;
        } else {
            self.address = address;
            self.op_index = 0;
            self.is_hidden = false;
        }
    }

    /// Clears what holds for one row alone; after the end of a sequence all is as at its start.
    pub fn clear(&mut self, rules: LineRules)
        ensures { self.new ≡ after_row rules self.old }
    {
        if self.end_sequence {
            *self = Registers::start(rules);
        } else {
            self.basic_block = false;
            self.prologue_end = false;
            self.epilogue_begin = false;
            self.discriminator = 0;
        }
    }
}

// How many whole instructions some operations fill, and how many operations are left over. Most
// machines have one operation in each instruction, which needs no division.
fn whole_instructions(operations: u64, maximum: u8) -> (u64, u64)
    requires { 0 < maximum }
    ensures { result ≡ (operations / maximum, operations % maximum) }
{
    if maximum == 1 {
        return (operations, 0);
    }
    let maximum = u64::from(maximum);
    (operations / maximum, operations % maximum)
}

// A line, moved.
fn line_after(line: u64, lines: i64) -> u64
    ensures { result ≡ line_after line lines }
{
    if lines < 0 {
        line.saturating_sub(lines.unsigned_abs())
    } else {
        line.wrapping_add(lines.unsigned_abs())
    }
}

// By how many lines a special opcode advances.
fn lines_of(rules: LineRules, opcode: u8) -> i64
    requires { IsSound rules }
    ensures { result ≡ line_advance rules opcode }
{
    let adjusted = opcode.saturating_sub(rules.opcode_base);
    let lines = adjusted % rules.line_encoding.line_range;
    i64::from(rules.line_encoding.line_base) + i64::from(lines)
}

// The sum of an address and an advance, where it is an address of the size.
fn sum_within(address: u64, advance: u64, address_size: u8) -> Result<u64, Error>
    requires { IsTrue (is_address_size address_size) }
    ensures { Returns result (address_within address_size (address + advance)) }
{
    match address.checked_add(advance) {
        Some(sum) if sum <= greatest_address(address_size) => Ok(sum),
        _ => Err(Error::AddressOverflow),
    }
}
