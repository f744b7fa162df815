//! Laws: what is written is read again. Each function does nothing, and its contract is proved.

ghost use Rattle.linemap_emit_parts.specs.EmittedRangeLaws.{RangesAgain};

/// A list is read as its ranges, whatever follows it.
pub fn ranges_again()
    ensures { RangesAgain }
{}
