//! What follows from the definitions. Each function is a law: it does nothing, and its contract is
//! proved.

ghost use Rattle.linemap_stretches_laws.specs.LookupStretchLaws.{StretchesMeet};

/// Where a sound table was recorded, the stretches between every two ends are the table's.
pub fn stretches_meet<U>()
    ensures { StretchesMeet U }
{}
