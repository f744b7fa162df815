//! Attributes that no name is made of. Those that reading refuses only where their bytes are
//! missing are skipped by their widths; the others are read, since a fault of theirs counts, and
//! dropped.

ghost use Rattle.std.specs.Prelude.{◌≡◌, ◌≤◌, map, length, IfOk};
ghost use Rattle.gimli_dwarf.specs.AbbreviationViews.{attribute_view};
ghost use Rattle.addr2line_names.specs.PassedAttributes.{BeginsWithName, Passes, PassesOrNoMemory};

use crate::attributes::{is_naming, naming_names};
use gimli_dwarf::{AttributeSpecification, EntriesRaw, Error, Reader, ReaderOffset};

// Skips the first attributes that no name is made of, up to one that must be looked at.
#[inline(always)]
fn skip<'s, R: Reader>(
    entries: &mut EntriesRaw<'_, R>,
    specifications: &'s [AttributeSpecification],
) -> &'s [AttributeSpecification]
    ensures passes { Passes R.Offset.limit (map attribute_view specifications.now) entries.old
        (map attribute_view result.now) entries.new }
    ensures fewer { length result.now ≤ length specifications.now }
{
    let names = naming_names();
    entries.skip_other_attributes(specifications, &names)
}

/// Passes the first attributes, up to one that a name may be made of. Returns the declarations of
/// the others.
#[inline(always)]
pub(crate) fn pass<'s, R: Reader>(
    entries: &mut EntriesRaw<'_, R>,
    specifications: &'s [AttributeSpecification],
) -> Result<&'s [AttributeSpecification], Error>
    ensures passes { PassesOrNoMemory R.Offset.limit (λ l. map attribute_view l.now) result
        (map attribute_view specifications.now) entries.old entries.new }
    ensures name { IfOk result (λ l. BeginsWithName (map attribute_view l.now)) }
    ensures fewer { IfOk result (λ l. length l.now ≤ length specifications.now) }
{
    let mut left = skip(entries, specifications);
    while let [specification, rest @ ..] = left {
        if is_naming(specification.name()) {
            return Ok(left);
        }
        match entries.read_attribute(*specification) {
            Ok(_attribute) => left = skip(entries, rest),
            Err(error) => return Err(error),
        }
    }
    Ok(left)
}
