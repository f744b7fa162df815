//! The stretches of addresses between two ends one step after the other, for a crate that keeps
//! itself how far it came.

ghost use Rattle.std.specs.Prelude.{◌≡◌, ◌≢◌, Err};
ghost use Rattle.std.specs.Borrow.{sem};
ghost use Rattle.std.specs.Io.BufRead.{Rests};
ghost use Rattle.addr2line_lookups.specs.Error.TheVariants.{Memory};
ghost use Rattle.addr2line_lookups.specs.KeptUnits.{KeepsAt, KeepsAsked};
ghost use Rattle.addr2line_lookups.specs.Lines.{Stretch};
ghost use Rattle.addr2line_lookups.specs.RangeWalks.{FindsStretch, IsStretchOf, KeepsStretch};
ghost use Rattle.addr2line_lookups.specs.StretchesLeft.{StretchComesNext};
ghost use Rattle.addr2line_context.specs.ContextCosts.{AsksForNext, AfterStep};
ghost use Rattle.addr2line_context.specs.LocationRanges.{left_in};
ghost use Rattle.addr2line_context.specs.RangeItems.{stretch_of_item};
ghost use Rattle.addr2line_context.specs.contracts.context.Context.{the_row};

use crate::context::Context;
use addr2line_lookups::{Error, Location, RangeWalk, Reader, UnitStretch};

/// The next stretch of a walk, as the iterator of `Context::find_location_range` finds it. The
/// lines of the units that this step asks are read, unless they are kept, and kept; else it takes
/// no memory. Out of memory leaves the walk where it was. Nothing is lent.
pub fn next_stretch<R: Reader>(
    context: &mut Context<R>,
    walk: &mut RangeWalk,
) -> Result<Option<UnitStretch>, Error>
    ensures stretch { FindsStretch context.old.value.plain.context.units result
        (left_in context.old walk.old) (left_in context.old walk.new) }
    ensures after { AfterStep result walk.old walk.new context.old context.new }
    ensures kept { KeepsStretch context.new.units result }
    ensures free { KeepsAsked (AsksForNext context.old.value walk.old) context.old.units
        → result ≢ Err Memory }
{
    context.next_stretch(walk)
}

/// A stretch that was found, with its place, which is lent by what is kept of its unit.
pub fn stretch_with_place<R: Reader>(
    context: &Context<R>,
    found: UnitStretch,
) -> (u64, u64, Location<'_>)
    requires kept { KeepsAt context.now.units found.row.unit }
    requires found { (x : Stretch) × IsStretchOf context.now.value.plain.context.units found x }
    ensures { (x : Stretch) → IsStretchOf context.now.value.plain.context.units found x
        → stretch_of_item result ≡ x }
{
    context.stretch_with_place(found)
}

/// The same with the place of the stretch, which is lent.
pub fn next_place<'a, R: Reader>(
    context: &'a mut Context<R>,
    walk: &mut RangeWalk,
) -> Result<Option<(u64, u64, Location<'a>)>, Error>
    ensures stretch { StretchComesNext stretch_of_item result
        (left_in context.old walk.old) (left_in context.old walk.new) }
    ensures free { KeepsAsked (AsksForNext context.old.value walk.old) context.old.units
        → result ≢ Err Memory }
    ensures* after { sem 𝓛 (Rests (the_row R.row R.Endian.row R.Offset.row R.Reader
        R.Endian.Endianity R.Offset.ReaderOffset.own R.Offset.Debug) context.entry
        (AfterStep result walk.old walk.new context.old)) }
{
    match context.next_stretch(walk)? {
        Some(found) => Ok(Some(context.stretch_with_place(found))),
        None => Ok(None),
    }
}
