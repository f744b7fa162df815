//! The headers of line number programs as they are written, in versions 2 to 5 (DWARF 5, 6.2.4),
//! and the law that they read back.
#![tactic(auto)]

pub mod header_laws;

pub use gimli_lines_header::FileEntryFormat;
