//! Facts about the attributes of a declaration, found while these are read.

ghost use Rattle.std.specs.Prelude.{◌≡◌, ◌≤◌, ◌==◌, if◌then◌else◌, ◌||◌, List, [], ◌∷◌, ◌++◌, map};
ghost use Rattle.gimli_core_abbrev.specs.AttributeViews.{attribute_view};
ghost use Rattle.gimli_core_abbrev.specs.Declarations.{Attribute};
ghost use Rattle.gimli_core_abbrev.specs.DeclarationFacts.{is_of_ranges, FitsInBytes, KnowsRead, know_ranges};

use crate::abbreviation::AttributeSpecification;
use crate::widths::PackedWidths;
use gimli_core_readers::{DW_AT_high_pc, DW_AT_low_pc, DW_AT_ranges, DwAt};

// The most attributes whose widths are counted, so that each sum of them fits in a byte.
const MOST_COUNTED: u32 = 15;

// Whether one of the attributes so far gives an entry's addresses, and the widths of the first
// ones. Three numbers, so that a loop has them in registers.
#[derive(Clone, Copy, Debug)]
pub(crate) struct AttributeFacts {
    // 1 if one of the attributes gives an entry's addresses, else 0.
    ranges: u32,
    widths: PackedWidths,
    // How many more can be counted: none after a form whose width isn't known.
    room: u32,
}

impl AttributeFacts {
    // The facts about no attributes.
    #[inline(always)]
    pub(crate) fn none() -> Self
        ensures knows { KnowsRead result [] }
        ensures fits { FitsInBytes result }
    {
        AttributeFacts {
            ranges: 0,
            widths: PackedWidths::none(),
            room: MOST_COUNTED,
        }
    }

    // The facts with one more attribute.
    #[inline(always)]
    pub(crate) fn with(self, attribute: AttributeSpecification) -> Self
        requires { FitsInBytes self }
        ensures knows { (before : List Attribute) → KnowsRead self before
            → KnowsRead result (before ++ attribute_view attribute ∷ []) }
        ensures fits { FitsInBytes result }
    {
        let widths = PackedWidths::of_form(attribute.form());
        // minima and no branch on the form, which could not be predicted; times 16 is a shift
        let count = self.room.min(widths.attributes());
        AttributeFacts {
            ranges: self.ranges | u32::from(is_of_ranges(attribute.name())),
            widths: self.widths.plus(widths, count),
            room: (self.room - count).min(count * (MOST_COUNTED + 1)),
        }
    }

    // Whether one of the attributes gives an entry's addresses.
    #[inline(always)]
    pub(crate) fn has_ranges(self) -> bool
        ensures { result ≡ know_ranges self }
    {
        self.ranges != 0
    }

    // The widths of the first attributes.
    #[inline(always)]
    pub(crate) fn widths(self) -> PackedWidths
        ensures { result ≡ self.widths }
    {
        self.widths
    }
}

// Whether an attribute of this name gives an entry's addresses.
#[inline(always)]
fn is_of_ranges(name: DwAt) -> bool
    ensures { result ≡ is_of_ranges name.0 }
{
    (name == DW_AT_low_pc) | (name == DW_AT_high_pc) | (name == DW_AT_ranges)
}
