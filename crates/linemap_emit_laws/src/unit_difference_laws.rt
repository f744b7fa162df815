//! What follows from the definitions. Each function is a law: it does nothing, and its contract is
//! proved.

ghost use Rattle.linemap_emit_laws.specs.UnitDifferences.{FilesAgreeOutside, TablesAgreeOutside};

/// Tables that differ in one unit alone say the same of each address that this unit holds in
/// neither.
pub fn tables_agree_outside()
    ensures { TablesAgreeOutside }
{}

/// Files that answer such tables, in whatever encodings, answer each such address alike.
pub fn files_agree_outside()
    ensures { FilesAgreeOutside }
{}
