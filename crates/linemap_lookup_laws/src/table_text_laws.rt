//! What follows from the definitions. The function is a law: it does nothing, and its contract is
//! proved.

ghost use Rattle.linemap_lookup_laws.specs.TableTextLaws.{TablePrinted};

use linemap_lookup::SplitSource;

/// Of the image of a table, as `emit` makes it, `run` prints the table's text, with any options and
/// any source of split files.
pub fn table_printed<S: SplitSource>()
    ensures { TablePrinted S.answers }
{}
