//! How often the line number programs of units were run.

ghost use Rattle.std.specs.Prelude.{◌≡◌, ◌≤◌, IfSome, slice_get, option_map};
ghost use Rattle.addr2line_lookups.specs.ResolvedUnits.{runs_of_unit};

use addr2line_lookups::{Reader, ResUnit, Runs};

// That of the unit of a number, if there is one.
pub(crate) fn runs_at<R: Reader>(units: &[ResUnit<R>], number: usize) -> Option<&Runs>
    ensures runs { option_map (λ r. r.now) result
        ≡ option_map runs_of_unit (slice_get units.now number) }
    ensures once { IfSome result (λ r. r.now.count ≤ 1) }
{
    match units.get(number) {
        Some(unit) => Some(unit.runs()),
        None => None,
    }
}
