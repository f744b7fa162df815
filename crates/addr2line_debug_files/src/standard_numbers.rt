//! The standards' numbers: each function here does nothing; its contract is a law, which a
//! definition states that can be read beside the standard.

ghost use Rattle.addr2line_debug_files.specs.StandardNumbers.{NoteNumbers, GeneratorTerms};

/// The numbers of notes.
pub fn note_numbers()
    ensures { NoteNumbers }
{}

/// The terms of the generator of CRC-32.
pub fn generator_terms()
    ensures { GeneratorTerms }
{}
