//! What follows from the definitions. Each function is a law: it does nothing, and its contract is
//! proved.

ghost use Rattle.linemap_emit_laws.specs.EmissionLaws.{EmissionAnswers, EmissionRecords};
ghost use Rattle.linemap_emit_laws.specs.ListTables.{ListTablesAgain};

/// Sections that hold what was emitted say what the table says.
pub fn emission_records()
    ensures { EmissionRecords }
{}

/// Over sections that hold what was emitted of a sound table there is a context, and it answers the
/// table's places, frames and stretches.
pub fn emission_answers()
    ensures { EmissionAnswers }
{}

/// The section of range lists that is emitted from version 5 on is read as one table: its header
/// says the encoding, and the lists are what follows it.
pub fn list_tables_again()
    ensures { ListTablesAgain }
{}
