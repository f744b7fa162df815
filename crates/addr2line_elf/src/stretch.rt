//! Stretches of addresses, each with the entry of its symbol.

ghost use Rattle.std.specs.Prelude.{◌≡◌};
ghost use Rattle.std.specs.List.{prefix_len};
ghost use Rattle.std.specs.List.Sorted.{IsNonDecreasingBy};
ghost use Rattle.addr2line_elf.specs.SymbolStretches.{last_of, ends_before, entry_at};

use crate::symbol_entries::SymbolEntry;

/// The addresses up to one of them, from the end of the stretch before on, and the entry of their
/// symbol, if they have one.
#[derive(Clone, Copy, Debug, PartialEq, Eq)]
pub struct SymbolStretch {
    pub(crate) last: u64,
    pub(crate) entry: Option<SymbolEntry>,
}

// The entry of the stretch of an address, by a bisection.
pub(crate) fn entry_at(stretches: &[SymbolStretch], address: u64) -> Option<SymbolEntry>
    requires { IsNonDecreasingBy last_of stretches.now }
    ensures { result ≡ entry_at address stretches.now None }
{
    match stretches.get(count_ending_before(stretches, address)) {
        Some(stretch) => stretch.entry,
        None => None,
    }
}

// How many of the stretches end before an address.
fn count_ending_before(stretches: &[SymbolStretch], address: u64) -> usize
    requires { IsNonDecreasingBy last_of stretches.now }
    ensures { result ≡ prefix_len (ends_before address) stretches.now }
{
    stretches.partition_point(
        |stretch: &SymbolStretch| -> bool
            ensures { result ≡ ends_before address stretch.now }
        { stretch.last < address },
    )
}
