//! Units in a row with equal ranges.

ghost use Rattle.std.specs.Prelude.{◌≡◌, true};
ghost use Rattle.addr2line_index.specs.SharedRanges.{EndsRise, IsShareable, GoesOn};

use addr2line_spec::Range;

/// Units in a row that have equal lists of ranges.
#[derive(Clone, Copy, Debug)]
pub struct UnitRun<'a> {
    pub(crate) ranges: &'a [Range],
    pub(crate) first: usize,
    pub(crate) last: usize,
}

// Whether each range ends above the one before it.
fn ends_rise(ranges: &[Range]) -> bool
    ensures { result ≡ true → EndsRise ranges.now }
{
    ranges.is_sorted_by(|a, b| a.end < b.end)
}

impl UnitRun<'_> {
    // Whether a unit comes next and has equal ranges, no two of which have one end. The ends are
    // looked at once for a run.
    pub(crate) fn goes_on(&self, unit: usize, ranges: &[Range]) -> bool
        requires { IsShareable self.now }
        ensures { result ≡ true → GoesOn self.now unit ranges.now }
    {
        if unit <= self.last || unit - self.last != 1 {
            return false;
        }
        if self.ranges != ranges {
            return false;
        }
        self.first < self.last || ends_rise(ranges)
    }
}
