//! What follows from the definitions. Each function is a law: it does nothing, and its contract is
//! proved.

ghost use Rattle.linemap_places_laws.specs.LocationLaws.{LocationsMeet};

/// Where a sound table was recorded, the location of every address is the table's.
pub fn locations_meet<U>()
    ensures { LocationsMeet U }
{}
