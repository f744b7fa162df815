//! Tests of calls, with those inlined into them at any depth.

ghost use Rattle.std.specs.Prelude.{◌≡◌, Bool, map, nat_lt};
ghost use Rattle.linemap_check.specs.RangePasses.{any_inner_outside};
ghost use Rattle.linemap_meaning.specs.Conditions.{any_call, any_call_outside, any_calls_overlap, any_inner_overlap, any_outside, any_overlap, depth, sibling_ranges};
ghost use Rattle.linemap_meaning.specs.TableParts.{Site};
ghost use Rattle.linemap_meaning.specs.TableViews.{call_part, calls_part, range_part};

use crate::outside::any_outside;
use crate::overlaps::any_overlap;
use linemap_meaning::table::{TableCall, TableRange};

/// A test of one call, without the calls inlined into it.
pub trait CallTest {
    ghost passes: { Self → Site → Bool };

    fn passes(&self, call: &TableCall) -> bool
        ensures { result ≡ passes self.now (call_part call.now).site };
}

/// Whether some call passes the test.
pub fn any_call<T: CallTest>(test: &T, calls: &[TableCall]) -> bool
    ensures { result ≡ any_call (T.passes test.now) (calls_part calls.now) }
{
    for call in calls {
        if test.passes(call) || any_call(test, &call.calls) {
            return true;
        }
    }
    false
}

/// Whether some call has a range outside its parent.
pub fn any_call_outside(parent: &[TableRange], calls: &[TableCall]) -> bool
    ensures { result ≡ any_call_outside (map range_part parent.now) (calls_part calls.now) }
{
    any_sibling_outside(parent, calls) || any_inner_outside(calls)
}

fn any_sibling_outside(parent: &[TableRange], calls: &[TableCall]) -> bool
    ensures { result
        ≡ any_outside (map range_part parent.now) (sibling_ranges (calls_part calls.now)) }
{
    any_outside(parent, calls)
}

fn any_inner_outside(calls: &[TableCall]) -> bool
    ensures { result ≡ any_inner_outside (calls_part calls.now) }
{
    for call in calls {
        if any_sibling_outside(&call.ranges, &call.calls) || any_inner_outside(&call.calls) {
            return true;
        }
    }
    false
}

/// Whether calls of the same parent overlap.
pub fn any_calls_overlap(calls: &[TableCall]) -> bool
    ensures { result ≡ any_calls_overlap (calls_part calls.now) }
{
    any_siblings_overlap(calls) || any_inner_overlap(calls)
}

fn any_siblings_overlap(calls: &[TableCall]) -> bool
    ensures { result ≡ any_overlap (sibling_ranges (calls_part calls.now)) }
{
    any_overlap(calls)
}

fn any_inner_overlap(calls: &[TableCall]) -> bool
    ensures { result ≡ any_inner_overlap (calls_part calls.now) }
{
    for call in calls {
        if any_siblings_overlap(&call.calls) || any_inner_overlap(&call.calls) {
            return true;
        }
    }
    false
}

/// Whether calls are nested deeper than a limit.
pub fn is_deeper(calls: &[TableCall], limit: usize) -> bool
    ensures { result ≡ nat_lt limit (depth (calls_part calls.now)) }
{
    for call in calls {
        if limit == 0 || is_deeper(&call.calls, limit - 1) {
            return true;
        }
    }
    false
}
