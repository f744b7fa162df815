//! Skipping entries up to one that a caller looks for.

ghost use Rattle.std.specs.Prelude.{◌≡◌, ℕ, ◌≤◌, ◌^◌, pos, ◌+ℤ◌, ◌≤ℤ◌, ◌<ℤ◌, None, Some, option_map};
ghost use Rattle.gimli_core_base.specs.View.{after, bytes_left};
ghost use Rattle.gimli_units_entries.specs.EntryWalks.{depth_after};
ghost use Rattle.gimli_units_entries.specs.OtherEntries.{DepthFits, after_other, is_tag_of, skip_others, walk_at};

use crate::codes::code_at;
use gimli_core_base::{DwTag, Encoding};
use gimli_units_forms::{Abbreviation, Abbreviations, borrowed, bytes_before, skip_declared};
use gimli_units_headers::Reader;

// Whether a tag is among these.
#[inline(always)]
fn is_one_of(tags: &[DwTag], tag: DwTag) -> bool
    ensures { result ≡ is_tag_of tags.now tag.0 }
{
    let mut left = tags;
    while let [first, rest @ ..] = left {
        if first.0 == tag.0 {
            return true;
        }
        left = rest;
    }
    false
}

// The depth after a null entry.
#[inline(always)]
fn depth_after_null(depth: isize) -> isize
    requires { pos 1 ≤ℤ (depth +ℤ pos (2 ^ 63)) }
    ensures { result ≡ depth_after depth None }
{
    depth - 1
}

// The depth after an entry with this declaration.
#[inline(always)]
fn depth_after(depth: isize, abbreviation: &Abbreviation<'_>) -> isize
    requires { (depth +ℤ pos 1) <ℤ pos (2 ^ 63) }
    ensures { result ≡ depth_after depth (Some abbreviation.now) }
{
    if abbreviation.has_children() {
        depth + 1
    } else {
        depth
    }
}

// Skips an entry whose tag isn't one of these, and returns the depth after it. None where the tag
// is one of them, or the entry can't be read or skipped; the place may have moved then.
#[inline(always)]
fn skip_other<R: Reader>(
    place: &mut R,
    encoding: Encoding,
    table: &Abbreviations,
    depth: isize,
    tags: &[DwTag],
) -> Option<isize>
    requires { DepthFits depth (R.view place.old) }
    ensures { (end_offset : ℕ) → after_other (is_tag_of tags.now)
        (walk_at encoding table.now end_offset depth (R.view place.old))
        ≡ option_map (λ d. walk_at encoding table.now end_offset d (R.view place.new)) result }
{
    let Ok((code, length)) = code_at(place) else {
        return None;
    };
    place.advance(length);
    if code == 0 {
        return Some(depth_after_null(depth));
    }
    let Some(abbreviation) = table.get(code) else {
        return None;
    };
    if is_one_of(tags, abbreviation.tag()) {
        return None;
    }
    let Ok(()) = skip_declared(place, encoding, &abbreviation) else {
        return None;
    };
    Some(depth_after(depth, &abbreviation))
}

// How many bytes of entries are skipped, where the first one is at a depth, and the depth after
// them.
pub(crate) fn others_after<R: Reader>(
    input: &R,
    encoding: Encoding,
    table: &Abbreviations,
    depth: isize,
    tags: &[DwTag],
    bound: isize,
) -> (usize, isize)
    requires { DepthFits depth (R.view input.now) }
    ensures value { (end_offset : ℕ) → skip_others (is_tag_of tags.now) bound
        (walk_at encoding table.now end_offset depth (R.view input.now))
        ≡ walk_at encoding table.now end_offset result.1 (after result.0 (R.view input.now)) }
    ensures within { result.0 ≤ bytes_left (R.view input.now) }
    ensures fits { DepthFits result.1 (after result.0 (R.view input.now)) }
{
    let mut place = borrowed(input);
    let mut depth = depth;
    while depth > bound {
        let mut next = place.range_from(0..);
        let Some(depth_after) = skip_other(&mut next, encoding, table, depth, tags) else {
            return (bytes_before(&place, input), depth);
        };
        place = next;
        depth = depth_after;
    }
    (bytes_before(&place, input), depth)
}
