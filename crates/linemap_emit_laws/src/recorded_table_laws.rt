//! What follows from the definitions. Each function is a law: it does nothing, and its contract is
//! proved.

ghost use Rattle.linemap_emit_laws.specs.RecordedTableLaws.{AnswersAgree, SectionsAnswer};

/// Over sections that say what a sound table says there is a context, and it answers the table's
/// places, frames and stretches.
pub fn sections_answer()
    ensures { SectionsAnswer }
{}

/// Files that answer the same table, in whatever encodings, answer alike.
pub fn answers_agree()
    ensures { AnswersAgree }
{}
