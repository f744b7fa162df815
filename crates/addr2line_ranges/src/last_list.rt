//! The range list that was read last. Units in a row may name the same one: it is read once, and
//! they share its ranges.

ghost use Rattle.std.specs.Prelude.{◌≡◌, None, MatchOption};
ghost use Rattle.gimli_lines_rows.specs.Calls.{ReturnsAsOrNoMemory};
ghost use Rattle.gimli_lines_rows.specs.Error.TheVariants.{Memory};
ghost use Rattle.addr2line_ranges.specs.RangeListReading.{listed_ranges};
ghost use Rattle.addr2line_ranges.specs.LastLists.{key_of, IsLastOf, IsReadBy};

use crate::lists::listed_ranges;
use crate::sharing::share;
use gimli_dwarf::UnitRef;
use gimli_lines_rows::{Error, Format, Range, RangeListsOffset, Reader, ReaderOffset};
use std::alloc::Global;
use std::rc::Rc;

/// What the ranges of a list depend on in its file: where it begins, the unit's encoding, and what
/// its addresses count from.
#[derive(Clone, Copy, Debug, PartialEq, Eq)]
pub struct ListKey {
    pub(crate) offset: u64,
    pub(crate) address_size: u8,
    pub(crate) format: Format,
    pub(crate) version: u16,
    pub(crate) low_pc: u64,
    pub(crate) address_base: u64,
}

/// A list that was read, and its ranges.
#[derive(Drop)]
pub struct ReadList {
    pub(crate) key: ListKey,
    pub(crate) ranges: Rc<Vec<Range>>,
}

/// The range list of a file that was read last, if one was.
#[derive(Drop)]
pub struct LastList {
    pub(crate) list: Option<ReadList>,
}

// What a list depends on that a unit names.
fn list_key<R: Reader>(unit: &UnitRef<'_, R>, offset: RangeListsOffset<R::Offset>) -> ListKey
    ensures { result ≡ key_of unit.now.facts.bases (R.Offset.count offset.0) }
{
    let unit = unit.unit;
    let encoding = unit.header.encoding();
    ListKey {
        offset: offset.0.into_u64(),
        address_size: encoding.address_size,
        format: encoding.format,
        version: encoding.version,
        low_pc: unit.low_pc,
        address_base: unit.addr_base.0.into_u64(),
    }
}

impl LastList {
    /// None yet. It takes no memory.
    pub fn new() -> Self
        ensures { result.list ≡ None }
    {
        LastList { list: None }
    }

    // Its ranges, if it was read by the same.
    fn ranges(&self, key: &ListKey) -> Option<&Rc<Vec<Range>>>
        ensures { MatchOption result (Unit {0})
            (λ r. IsReadBy self.now.list key.now r.now.value.items) }
    {
        match &self.list {
            Some(list) if list.key == *key => Some(&list.ranges),
            _ => None,
        }
    }
}

// The ranges of the list at an offset, or the first refusal. They are those of the last list, if
// that was read by the same; else this is the last list then.
pub(crate) fn shared_list<R: Reader>(
    alloc: Global,
    unit: &UnitRef<'_, R>,
    offset: RangeListsOffset<R::Offset>,
    last: &mut LastList,
) -> Result<Rc<Vec<Range>>, Error>
    requires { IsLastOf unit.now.file last.old }
    ensures ranges { ReturnsAsOrNoMemory (λ r. r.value.items) result
        (listed_ranges unit.now (R.Offset.count offset.0)) }
    ensures last { IsLastOf unit.now.file last.new }
{
    let key = list_key(unit, offset);
    if let Some(ranges) = last.ranges(&key) {
        return share(ranges);
    }
    let ranges = Rc::new(alloc, listed_ranges(alloc, unit, offset)?)?;
    last.list = Some(ReadList {
        key,
        ranges: share(&ranges)?,
    });
    Ok(ranges)
}
