//! The places between two ends, one after the other.

ghost use Rattle.std.specs.Prelude.{◌≡◌, ◌≢◌, [], Err};
ghost use Rattle.addr2line_context.specs.ContextCosts.{AsksForNext};
ghost use Rattle.addr2line_context.specs.Error.TheVariants.{Memory};
ghost use Rattle.addr2line_context.specs.KeptUnits.{KeepsAt, KeepsAsked};
ghost use Rattle.addr2line_context.specs.Lines.{Stretch};
ghost use Rattle.addr2line_context.specs.RangeItems.{stretch_of_item};
ghost use Rattle.addr2line_context.specs.RangeWalks.{FindsStretch, IsStretchOf, KeepsStretch};
ghost use Rattle.addr2line_loader.specs.FileRanges.{left_in};
ghost use Rattle.addr2line_loader.specs.ResolvedFiles.{AfterStretch, answered_context};

use crate::loader::Loader;
use crate::stretches::{next_stretch, stretch_with_place};
use addr2line_context::{Error, Location, RangeWalk, UnitStretch};

/// The stretches of addresses between two ends that are left in a loader, with their places, as
/// `LocationRangeIter` has those of a context. It holds the loader, in which it reads the lines of
/// each unit where it comes to it, unless they are kept, and keeps them.
#[derive(Drop)]
pub struct LoaderRangeIter<'a> {
    pub(crate) loader: &'a mut Loader,
    pub(crate) walk: RangeWalk,
}

impl<'a> LoaderRangeIter<'a> {
    ghost use Rattle.std.specs.Borrow.{sem};
    ghost use Rattle.std.specs.Io.BufRead.{Rests};
    ghost use mir.Syntax.{named};
    ghost use Rattle.addr2line_loader.specs.FileRanges.{MovesOn};
    ghost use Rattle.addr2line_loader.specs.contracts.location_range.LoaderRangeIter.{the_row};

    // Goes on to the next stretch.
    fn advance(&mut self) -> Result<Option<UnitStretch>, Error>
        ensures same_reference { self.new.loader.ghost_name ≡ self.old.loader.ghost_name }
        ensures stretch { FindsStretch self.old.loader.now.file.context.context.units result
            (left_in self.old.loader.now self.old.walk)
            (left_in self.new.loader.now self.new.walk) }
        ensures after { AfterStretch result self.old.walk self.new.walk self.old.loader.now
            self.new.loader.now }
        ensures kept { KeepsStretch self.new.loader.now.units result }
        ensures free { KeepsAsked
            (AsksForNext (answered_context self.old.loader.now.file) self.old.walk)
            self.old.loader.now.units → result ≢ Err Memory }
    {
        next_stretch(self.loader, &mut self.walk)
    }

    // A stretch that was found, with its place.
    fn item(&self, found: UnitStretch) -> (u64, u64, Location<'_>)
        requires kept { KeepsAt self.now.loader.now.units found.row.unit }
        requires found { (x : Stretch)
            × IsStretchOf self.now.loader.now.file.context.context.units found x }
        ensures { (x : Stretch)
            → IsStretchOf self.now.loader.now.file.context.context.units found x
            → stretch_of_item result ≡ x }
    {
        stretch_with_place(self.loader, found)
    }

    /// The next address, how many there are from it on, and their place, as
    /// `LocationRangeIter::next` finds them. A refusal of a unit's lines comes after the items
    /// before it, and again at each further call. Where the lines of the units that it asks are
    /// kept it takes no memory. Out of memory leaves the iterator where it was, and what was read
    /// is kept.
    pub fn next<'b>(&'b mut self) -> Result<Option<(u64, u64, Location<'b>)>, Error>
        ensures free { KeepsAsked
            (AsksForNext (answered_context self.old.loader.now.file) self.old.walk)
            self.old.loader.now.units → result ≢ Err Memory }
        ensures* after { sem 𝓛 (Rests (the_row (record { mir = named 0; lft = [] })) self.entry
            (λ left. MovesOn result self.old.loader self.old.walk left.loader left.walk)) }
    {
        match self.advance()? {
            Some(found) => Ok(Some(self.item(found))),
            None => Ok(None),
        }
    }
}
