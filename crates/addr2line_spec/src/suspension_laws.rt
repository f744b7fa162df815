//! What follows from the definitions. Each function is a law: it does nothing, and its contract is
//! proved.

ghost use Rattle.addr2line_spec.specs.SuspensionLaws.{AnswerTakesOneLoad, NoSplitPartNoWait, SecondAnswerIsIgnored, WaitsForTheFirstLoad};

/// A lookup that is suspended waits for the first of the pending loads of its address; where there
/// are none, it isn't suspended.
pub fn waits_for_the_first_load()
    ensures { WaitsForTheFirstLoad }
{}

/// An answer to a load takes that unit's load from those of every address, and no other. So a
/// lookup is suspended at most once for each unit, and never for a decided one.
pub fn answer_takes_one_load()
    ensures { AnswerTakesOneLoad }
{}

/// After an answer to a unit's load a second one changes nothing.
pub fn second_answer_is_ignored()
    ensures { SecondAnswerIsIgnored }
{}

/// Where no unit has a split part, no lookup is suspended: frames are those of the first unit that
/// has some.
pub fn no_split_part_no_wait()
    ensures { NoSplitPartNoWait }
{}
