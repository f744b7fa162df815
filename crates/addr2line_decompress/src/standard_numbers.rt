//! The standards' numbers: each function here does nothing; its contract is a law, which a
//! definition states that can be read beside the standard.

ghost use Rattle.addr2line_decompress.specs.StandardNumbers.{CompressionNumbers, GrowthNumbers};

/// How sections are compressed (System V ABI, "Section Compression").
pub fn compression_numbers()
    ensures { CompressionNumbers }
{}

/// How many bytes DEFLATE makes of one at most (RFC 1951, 3.2.5).
pub fn growth_numbers()
    ensures { GrowthNumbers }
{}
