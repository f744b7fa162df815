//! What follows from the definitions. Each function is a law: it does nothing, and its contract is
//! proved.

ghost use Rattle.linemap_emit_units.specs.FittingUnits.{SoundTablesFit};
ghost use Rattle.linemap_emit_fits.specs.EmissionBounds.{WeightBoundsSize};

/// What is emitted of a sound table fits where the table's weight is below 2^31.
pub fn tables_fit()
    ensures { SoundTablesFit }
{}

/// The sections of a sound table have no more bytes, together, than the table weighs.
pub fn weight_bounds_size()
    ensures { WeightBoundsSize }
{}
