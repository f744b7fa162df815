//! What follows from the definitions. Each function is a law: it does nothing, and its contract is
//! proved.

ghost use Rattle.addr2line_index.specs.RangeIndexLaws.{PlacesByNumbers, StretchesByNumbers, PlacesOfViews, StretchesOfViews, RangesOfViews};

/// The place of an address is the first answer of the units whose ranges cover it.
pub fn places_by_numbers()
    ensures { PlacesByNumbers }
{}

/// The stretches between two ends are those of the units whose ranges overlap what lies between.
pub fn stretches_by_numbers()
    ensures { StretchesByNumbers }
{}

/// Of units of any kind, seen by their ranges and lines, a place is the same.
pub fn places_of_views<U>()
    ensures { PlacesOfViews U }
{}

/// Of units of any kind, seen by their ranges and lines, the stretches are the same.
pub fn stretches_of_views<U>()
    ensures { StretchesOfViews U }
{}

/// Of units of any kind, seen by their ranges and lines, the ranges in their order are the same.
pub fn ranges_of_views<U>()
    ensures { RangesOfViews U }
{}
