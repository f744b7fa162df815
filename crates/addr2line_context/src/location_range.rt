//! The places between two ends, one after the other.

ghost use Rattle.std.specs.Prelude.{◌≡◌, ◌≢◌, [], Err};
ghost use Rattle.addr2line_lookups.specs.Error.TheVariants.{Memory};
ghost use Rattle.addr2line_lookups.specs.KeptUnits.{KeepsAt, KeepsAsked};
ghost use Rattle.addr2line_lookups.specs.Lines.{Stretch};
ghost use Rattle.addr2line_lookups.specs.RangeWalks.{FindsStretch, IsStretchOf, KeepsStretch};
ghost use Rattle.addr2line_context.specs.ContextCosts.{AsksForNext, AfterStep};
ghost use Rattle.addr2line_context.specs.LocationRanges.{left_in};
ghost use Rattle.addr2line_context.specs.RangeItems.{stretch_of_item};

use crate::context::Context;
use addr2line_lookups::{Error, Location, RangeWalk, Reader, UnitStretch};

/// The stretches of addresses between two ends that are left, with their places. They end with the
/// first unit whose lines are refused. It holds the context, in which it reads the lines of each
/// unit where it comes to it, unless they are kept, and keeps them: for an item those of the units
/// up to the first that has one, and of no unit after it.
#[derive(Drop)]
pub struct LocationRangeIter<'ctx, R: Reader> {
    pub(crate) context: &'ctx mut Context<R>,
    pub(crate) walk: RangeWalk,
}

impl<'ctx, R: Reader> LocationRangeIter<'ctx, R> {
    ghost use Rattle.std.specs.Borrow.{sem};
    ghost use Rattle.std.specs.Io.BufRead.{Rests};
    ghost use mir.Syntax.{named};
    ghost use Rattle.addr2line_context.specs.LocationRanges.{MovesOn};
    ghost use Rattle.addr2line_context.specs.contracts.location_range.LocationRangeIter.{the_row};

    // Goes on to the next stretch.
    fn advance(&mut self) -> Result<Option<UnitStretch>, Error>
        ensures same_reference { self.new.context.ghost_name ≡ self.old.context.ghost_name }
        ensures stretch { FindsStretch self.old.context.now.value.plain.context.units result
            (left_in self.old.context.now self.old.walk)
            (left_in self.new.context.now self.new.walk) }
        ensures after { AfterStep result self.old.walk self.new.walk self.old.context.now
            self.new.context.now }
        ensures kept { KeepsStretch self.new.context.now.units result }
        ensures free { KeepsAsked (AsksForNext self.old.context.now.value self.old.walk)
            self.old.context.now.units → result ≢ Err Memory }
    {
        self.context.next_stretch(&mut self.walk)
    }

    // A stretch that was found, with its place.
    fn item(&self, found: UnitStretch) -> (u64, u64, Location<'_>)
        requires kept { KeepsAt self.now.context.now.units found.row.unit }
        requires found { (x : Stretch)
            × IsStretchOf self.now.context.now.value.plain.context.units found x }
        ensures { (x : Stretch)
            → IsStretchOf self.now.context.now.value.plain.context.units found x
            → stretch_of_item result ≡ x }
    {
        self.context.stretch_with_place(found)
    }

    /// The next address, how many there are from it on, and their place. A refusal of a unit's
    /// lines comes after the items before it, and again at each further call. The lines of the
    /// units that it asks are read, unless they are kept, and kept, those of no other unit: of the
    /// unit that it is in, and, where that has no more items, of those after it, up to the first
    /// that has one or is refused. Where these are kept it takes no memory. Out of memory leaves
    /// the iterator where it was, and what was read is kept.
    pub fn next<'a>(&'a mut self) -> Result<Option<(u64, u64, Location<'a>)>, Error>
        ensures free { KeepsAsked (AsksForNext self.old.context.now.value self.old.walk)
            self.old.context.now.units → result ≢ Err Memory }
        ensures* after { sem 𝓛 (Rests (the_row (record { mir = named 0; lft = [] }) R.row
            R.Endian.row R.Offset.row R.Reader R.Endian.Endianity R.Offset.ReaderOffset.own
            R.Offset.Debug) self.entry (λ left. MovesOn result self.old.context self.old.walk
            left.context left.walk)) }
    {
        match self.advance()? {
            Some(found) => Ok(Some(self.item(found))),
            None => Ok(None),
        }
    }
}
