//! What follows from the definitions of names. Each function is a law: it does nothing, and its
//! contract is proved.

ghost use Rattle.addr2line_functions.specs.NameLaws.{NamesByAttributes};

/// The name of an entry that is found in a context, one attribute after the other, is the name of
/// all its attributes.
pub fn names_by_attributes()
    ensures { NamesByAttributes }
{}
