//! What follows from the definitions. Each function is a law: it does nothing, and its contract is
//! proved.

ghost use Rattle.linemap_emit_calls_laws.specs.FunctionLaws.{FunctionsAgain};

/// Entries that say what a table's functions and calls say are read as these: the functions with
/// their ranges, their names, and their calls in order, each at its depth.
pub fn functions_again()
    ensures { FunctionsAgain }
{}
