use gimli_core_readers::{Encoding, LineEncoding};

/// What instructions depend on, from the header of their program (DWARF 5, 6.2.4).
#[derive(Clone, Copy, Debug, PartialEq, Eq, Hash)]
pub struct LineRules {
    pub encoding: Encoding,
    pub line_encoding: LineEncoding,
    /// The first special opcode.
    pub opcode_base: u8,
}
