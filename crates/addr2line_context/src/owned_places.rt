//! Places and stretches with texts of their own, which borrow nothing of a context.

ghost use Rattle.std.specs.Prelude.{◌≡◌, option_map};
ghost use Rattle.std.specs.String.{string_bytes};
ghost use Rattle.addr2line_lookups.specs.BorrowedLocations.{location_value};
ghost use Rattle.addr2line_context.specs.OwnedPlaces.{CopiesOrNoMemory, location_of, stretch_of};
ghost use Rattle.addr2line_context.specs.RangeItems.{stretch_of_item};

use addr2line_lookups::{Error, Location};
use std::alloc::Global;

/// A place in the source: a `Location` with a text of its own.
#[derive(Debug, PartialEq, Drop)]
pub struct OwnedLocation {
    /// The file's text, where the unit has that file.
    pub file: Option<String>,
    /// The line, from 1 on.
    pub line: Option<u32>,
    /// The column, from 1 on; 0 is the left edge.
    pub column: Option<u32>,
    /// Whether a statement begins there.
    pub statement: Option<bool>,
    /// Which of the blocks of its line the code belongs to; 0 where there is only one.
    pub discriminator: Option<u64>,
}

/// A stretch of addresses that have one place.
#[derive(Debug, PartialEq, Drop)]
pub struct OwnedStretch {
    /// The first address.
    pub address: u64,
    /// How many addresses there are from the first on.
    pub length: u64,
    /// The place that all of them have.
    pub location: OwnedLocation,
}

// A copy of a text, if there is one.
fn copy_text(alloc: Global, text: Option<&str>) -> Result<Option<String>, Error>
    ensures { CopiesOrNoMemory (option_map string_bytes) result
        (option_map (λ t. t.now) text.entry) }
{
    match text {
        Some(text) => Ok(Some(String::from_str(alloc, text)?)),
        None => Ok(None),
    }
}

impl OwnedLocation {
    /// A copy of a place. Takes memory for its text alone, and is refused only when out of memory.
    pub fn copy(alloc: Global, place: Location<'_>) -> Result<OwnedLocation, Error>
        ensures { CopiesOrNoMemory location_of result (location_value place.entry) }
    {
        Ok(OwnedLocation {
            file: copy_text(alloc, place.file)?,
            line: place.line,
            column: place.column,
            statement: place.statement,
            discriminator: place.discriminator,
        })
    }

    /// The same, if there is a place; where there is none, it takes no memory.
    pub fn copy_if_any(
        alloc: Global,
        place: Option<Location<'_>>,
    ) -> Result<Option<OwnedLocation>, Error>
        ensures { CopiesOrNoMemory (option_map location_of) result
            (option_map location_value place.entry) }
    {
        match place {
            Some(place) => Ok(Some(OwnedLocation::copy(alloc, place)?)),
            None => Ok(None),
        }
    }

    /// The place, its text borrowed from this copy. Takes no memory.
    pub fn lend(&self) -> Location<'_>
        ensures { location_value result ≡ location_of self.now }
    {
        Location {
            file: self.file.as_deref(),
            line: self.line,
            column: self.column,
            statement: self.statement,
            discriminator: self.discriminator,
        }
    }
}

impl OwnedStretch {
    /// A copy of a stretch, as `LocationRangeIter::next` gives it. Takes memory for the text of its
    /// place alone, and is refused only when out of memory.
    pub fn copy(alloc: Global, stretch: (u64, u64, Location<'_>)) -> Result<OwnedStretch, Error>
        ensures { CopiesOrNoMemory stretch_of result (stretch_of_item stretch.entry) }
    {
        let (address, length, place) = stretch;
        Ok(OwnedStretch {
            address,
            length,
            location: OwnedLocation::copy(alloc, place)?,
        })
    }
}
