//! One search for all sorted lists of lookups: a bisection.

ghost use Rattle.std.specs.Prelude.{◌≡◌, ◌+◌, Bool, length, option_map};
ghost use Rattle.std.specs.List.{prefix_len};
ghost use Rattle.std.specs.List.Sorted.{IsPartitionedBy};
ghost use Rattle.addr2line_search.specs.Searches.{last_passing, digit_count, AtMostProbes};

use crate::probed::{Probed, Probes};

/// What is looked for in a sorted list.
pub trait SearchKey<T> {
    /// Whether an entry is at or below the key.
    ghost is_at_or_above: { Self → T → Bool };

    /// Whether an entry is at or below the key.
    fn is_at_or_above(&self, entry: &T) -> bool
        ensures { result ≡ is_at_or_above self.now entry.now };
}

/// How many entries of a list come before the first that is above a key. The entries must be in
/// the order of keys.
pub fn count_up_to<T, K: SearchKey<T>>(list: &Probed<T>, key: &K, probes: &mut Probes) -> usize
    requires counter { probes.old.name ≡ list.now.counter }
    requires sorted { IsPartitionedBy (K.is_at_or_above key.now) list.now.entries }
    ensures count { result ≡ prefix_len (K.is_at_or_above key.now) list.now.entries }
    ensures cost { AtMostProbes (digit_count (length list.now.entries)) probes.old probes.new }
{
    let mut low = 0;
    let mut left = list.len();
    while left > 0 {
        let half = left / 2;
        if key.is_at_or_above(list.at(low + half, probes)) {
            low += half + 1;
            left -= half + 1;
        } else {
            left = half;
        }
    }
    low
}

/// The last entry of a list that is at or below a key. The entries must be in the order of keys.
pub fn last_up_to<'a, T, K: SearchKey<T>>(
    list: &'a Probed<T>,
    key: &K,
    probes: &mut Probes,
) -> Option<&'a T>
    requires counter { probes.old.name ≡ list.now.counter }
    requires sorted { IsPartitionedBy (K.is_at_or_above key.now) list.now.entries }
    ensures entry { option_map (λ x. x.now) result
        ≡ last_passing (K.is_at_or_above key.now) list.now.entries }
    ensures cost { AtMostProbes (digit_count (length list.now.entries) + 1) probes.old probes.new }
{
    let count = count_up_to(list, key, probes);
    if count == 0 {
        None
    } else {
        Some(list.at(count - 1, probes))
    }
}
