//! The limit of this crate. The function does nothing; its contract is a law.
ghost use Rattle.linemap_output.specs.WritingLimits.{InterruptionLimit};

/// How many interruptions in a row are a fault.
pub fn interruption_limit()
    ensures { InterruptionLimit }
{}
