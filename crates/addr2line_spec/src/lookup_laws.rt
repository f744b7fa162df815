//! What follows from the definitions. Each function is a law: it does nothing, and its contract is
//! proved.

ghost use Rattle.addr2line_spec.specs.LookupLaws.{HoldsOnce, LastAtOrBelow, NoPairIsLost};

/// Where no two ranges overlap, and each has an address, what holds an address is the first that
/// does.
pub fn holds_once<X>()
    ensures { HoldsOnce X }
{}

/// Where rows ascend, the row of an address is the last at or below it.
pub fn last_at_or_below()
    ensures { LastAtOrBelow }
{}

/// The pairs in their order are the same and as many.
pub fn no_pair_is_lost<U>()
    ensures { NoPairIsLost U }
{}
