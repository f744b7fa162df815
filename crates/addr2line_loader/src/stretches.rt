//! The stretches of addresses between two ends one step after the other, for a crate that keeps
//! itself how far it came.

ghost use Rattle.std.specs.Prelude.{◌≡◌, ◌≢◌, Err};
ghost use Rattle.std.specs.Borrow.{sem};
ghost use Rattle.std.specs.Io.BufRead.{Rests};
ghost use Rattle.addr2line_context.specs.ContextCosts.{AsksForNext};
ghost use Rattle.addr2line_context.specs.Error.TheVariants.{Memory};
ghost use Rattle.addr2line_context.specs.KeptUnits.{KeepsAt, KeepsAsked};
ghost use Rattle.addr2line_context.specs.Lines.{Stretch};
ghost use Rattle.addr2line_context.specs.RangeItems.{stretch_of_item};
ghost use Rattle.addr2line_context.specs.RangeWalks.{FindsStretch, IsStretchOf, KeepsStretch, stretches_left};
ghost use Rattle.addr2line_context.specs.StretchesLeft.{StretchComesNext};
ghost use Rattle.addr2line_loader.specs.ResolvedFiles.{AfterStretch, answered_context};
ghost use Rattle.addr2line_loader.specs.contracts.loader.Loader.{the_row};

use crate::loader::Loader;
use addr2line_context::{Error, Location, RangeWalk, UnitStretch, range_steps};

/// The next stretch of a walk, as the iterator of `Loader::find_location_range` finds it. The lines
/// of the units that it asks are read, unless they are kept, and kept, those of no other unit; else
/// it takes no memory. Out of memory leaves the walk where it was. Nothing is lent.
pub fn next_stretch(loader: &mut Loader, walk: &mut RangeWalk) -> Result<Option<UnitStretch>, Error>
    ensures stretch { FindsStretch loader.old.file.context.context.units result
        (stretches_left loader.old.file.context.context.units walk.old)
        (stretches_left loader.old.file.context.context.units walk.new) }
    ensures after { AfterStretch result walk.old walk.new loader.old loader.new }
    ensures kept { KeepsStretch loader.new.units result }
    ensures free { KeepsAsked (AsksForNext (answered_context loader.old.file) walk.old)
        loader.old.units → result ≢ Err Memory }
{
    range_steps::next_stretch(&mut loader.context, walk)
}

/// The same with the place of the stretch, which is lent.
pub fn next_place<'a>(
    loader: &'a mut Loader,
    walk: &mut RangeWalk,
) -> Result<Option<(u64, u64, Location<'a>)>, Error>
    ensures stretch { StretchComesNext stretch_of_item result
        (stretches_left loader.old.file.context.context.units walk.old)
        (stretches_left loader.old.file.context.context.units walk.new) }
    ensures free { KeepsAsked (AsksForNext (answered_context loader.old.file) walk.old)
        loader.old.units → result ≢ Err Memory }
    ensures* after { sem 𝓛 (Rests the_row loader.entry
        (AfterStretch result walk.old walk.new loader.old)) }
{
    range_steps::next_place(&mut loader.context, walk)
}

// A stretch that was found, with its place, which is lent by what is kept of its unit.
pub(crate) fn stretch_with_place(loader: &Loader, found: UnitStretch) -> (u64, u64, Location<'_>)
    requires kept { KeepsAt loader.now.units found.row.unit }
    requires found { (x : Stretch) × IsStretchOf loader.now.file.context.context.units found x }
    ensures { (x : Stretch) → IsStretchOf loader.now.file.context.context.units found x
        → stretch_of_item result ≡ x }
{
    range_steps::stretch_with_place(&loader.context, found)
}
