//! Laws of names. Each function does nothing; its contract is the law, and it is proved.

ghost use Rattle.addr2line_names.specs.FunctionNameLaws.{OwnNameNeedsNoReference, RefusalIsFinal, CirclesHaveNoName, ChainsAreLimited, OffsetsLeadIntoTheirUnit};

/// Where an attribute before all references is a name, the entry has one, and other units don't
/// matter.
pub fn own_name_needs_no_reference()
    ensures { OwnNameNeedsNoReference }
{}

/// What refuses the name of an entry refuses it whatever attributes follow.
pub fn refusal_is_final()
    ensures { RefusalIsFinal }
{}

/// Two entries that refer to each other have no name.
pub fn circles_have_no_name()
    ensures { CirclesHaveNoName }
{}

/// At most 16 references lead to a name, one after the other.
pub fn chains_are_limited()
    ensures { ChainsAreLimited }
{}

/// Where units follow one another, an offset of their section that is among the entries of one of
/// them leads to that entry.
pub fn offsets_lead_into_their_unit()
    ensures { OffsetsLeadIntoTheirUnit }
{}
