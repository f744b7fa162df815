//! What holds of every walk: each function here has an empty body, and its contract is a law.

ghost use Rattle.gimli_units_entries.specs.EntryLaws.{SkippingFollowsReading, AllChosenIsRead, ChoiceDropsAttributes, RowsByChoice, NoMoreRowsThanBytes, OffsetsGrow, RowsAreFoundAgain};

/// Where attributes can be read, skipping them leaves what reading leaves (DWARF 5, 7.5.3).
pub fn skipping_follows_reading()
    ensures { SkippingFollowsReading }
{}

/// A row whose attributes are read is the row for which all tags are chosen.
pub fn all_chosen_is_read()
    ensures { AllChosenIsRead }
{}

/// Where a row is read, a choice of tags changes nothing but its attributes.
pub fn choice_drops_attributes()
    ensures { ChoiceDropsAttributes }
{}

/// Where all rows of a walk can be read, a choice of tags changes nothing but attributes.
pub fn rows_by_choice()
    ensures { RowsByChoice }
{}

/// Each row takes a byte at least.
pub fn no_more_rows_than_bytes()
    ensures { NoMoreRowsThanBytes }
{}

/// Each row comes after the one before.
pub fn offsets_grow()
    ensures { OffsetsGrow }
{}

/// Each row of a unit is, but for its depth, the entry that is found at its offset; a null entry is
/// refused there.
pub fn rows_are_found_again()
    ensures { RowsAreFoundAgain }
{}
