//! What holds of every header: each function here has an empty body, and its contract is a law.

ghost use Rattle.gimli_lines_header.specs.LineHeaderLaws.{LengthsDelimitHeaders, TablesFit, EntriesTakeBytes};

/// A header and its program are the bytes that the lengths count: the program begins where the
/// header's own length says, whatever the tables take (DWARF 5, 6.2.4).
pub fn lengths_delimit_headers()
    ensures { LengthsDelimitHeaders }
{}

/// There are no more directories and files than bytes that the header's own length counts, even
/// where a number of entries says more.
pub fn tables_fit()
    ensures { TablesFit }
{}

/// Each entry of version 5 takes a byte at least, since one of its fields is a path and each form
/// that fields may have takes a byte.
pub fn entries_take_bytes()
    ensures { EntriesTakeBytes }
{}
