//! The limit of reads. The function does nothing; its contract is a law.

ghost use Rattle.linemap_lookup.specs.ReadLimits.{TryLimit};

/// How often a reader is asked for lines.
pub fn try_limit()
    ensures { TryLimit }
{}
