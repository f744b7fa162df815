use crate::row::LineRow;
use gimli_lines_write_bytes::Address;

/// What a program that is built says, in order.
#[derive(Clone, Copy, Debug, PartialEq, Eq)]
pub enum LineEntry {
    /// The address from which the next rows count their offsets.
    SetAddress(Address),
    Row(LineRow),
    /// The first address after a sequence, and the operation there.
    EndSequence { address_offset: u64, op_index: u64 },
}
