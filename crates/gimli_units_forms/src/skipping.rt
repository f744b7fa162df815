ghost use Rattle.std.specs.Prelude.{◌≡◌, ◌<◌, ◌+◌, ◌^◌, ◌≤◌, ℕ, Result, Ok, IfOk, IfSome, List, ◌∷◌, map, length, Some, None, option_map};
ghost use Rattle.gimli_core_abbrev.specs.Calls.{ReturnsAs, Reads};
ghost use Rattle.gimli_core_abbrev.specs.Declarations.{Attribute};
ghost use Rattle.gimli_core_abbrev.specs.FormWidths.{width_of};
ghost use Rattle.gimli_core_abbrev.specs.AbbreviationViews.{attribute_view};
ghost use Rattle.gimli_units_forms.specs.AttributeReading.{attributes};
ghost use Rattle.gimli_core_abbrev.specs.NumberParsers.{unsigned};
ghost use Rattle.gimli_units_forms.specs.AttributeValues.{RawAttribute};
ghost use Rattle.gimli_core_abbrev.specs.View.{View, after};
ghost use Rattle.gimli_core_abbrev.specs.Results.{and_then};
ghost use Rattle.gimli_units_forms.specs.SkippingLaws.{SkipsByRuns, BeginsWithLook, skip_bytes_and_values};
ghost use Rattle.gimli_units_forms.specs.AttributeSkipping.{skip_text, way_of, look_at_value, run as run_of, Way, skip_ways, skip_values};

use crate::reading::{read_fixed, read_form};
use crate::spelling::{Spelling, spelling_of};
use gimli_core_abbrev::{
    Abbreviation, AttributeSpecification, DwForm, Encoding, Error, Reader, borrowed, bytes_before,
};

// The width of a form's value, where it doesn't depend on the bytes.
#[inline(always)]
fn fixed_width(encoding: Encoding, form: DwForm) -> Option<u8>
    ensures { result ≡ width_of encoding form.0 }
{
    match spelling_of(encoding, form) {
        Spelling::Address => Some(encoding.address_size),
        Spelling::Fixed(width) => Some(width),
        Spelling::Sixteen => Some(16),
        Spelling::Constant => Some(0),
        _ => None,
    }
}

// Skips bytes that aren't looked at.
#[tactic(auto, unfolding(crate::specs::AttributeSkipping::run))]
fn skip_run<R: Reader>(place: &mut R, width: u64) -> Result<(), Error>
    ensures { ReturnsAs (λ u. (u, R.view place.new)) result (run_of width (R.view place.old)) }
{
    if width > place.as_bytes().len() as u64 {
        return Err(Error::UnexpectedEof(place.offset_id()));
    }
    place.advance(width as usize);
    Ok(())
}

// Skips a text and its zero byte.
fn skip_string<R: Reader>(place: &mut R) -> Result<(), Error>
    ensures { ReturnsAs (λ u. (u, R.view place.new)) result (skip_text (R.view place.old)) }
{
    let length = place.find(0)?;
    place.skip(length)?;
    place.advance(1);
    Ok(())
}

/// The next byte, where it is an unsigned LEB128 number by itself (DWARF 5, 7.6).
#[inline(always)]
#[tactic(auto, unfolding(gimli_core_base::specs::NumberParsers::unsigned))]
pub fn short_number<R: Reader>(place: &R) -> Option<u64>
    ensures number { IfSome result
        (λ n. unsigned (R.view place.now) ≡ Ok (n, after 1 (R.view place.now))) }
    ensures there { IfSome result (λ n. 1 ≤ length (R.view place.now).bytes) }
{
    match place.as_bytes() {
        [number, ..] if *number < 128 => Some(u64::from(*number)),
        _ => None,
    }
}

// An unsigned LEB128 length: one byte before nearly all blocks.
#[inline(always)]
fn read_length<R: Reader>(place: &mut R) -> Result<u64, Error>
    ensures { ReturnsAs (λ n. (n, R.view place.new)) result (unsigned (R.view place.old)) }
{
    match short_number(place) {
        Some(length) => {
            place.advance(1);
            Ok(length)
        }
        None => place.read_uleb128(),
    }
}

// Looks at the bytes of a form's value, and returns how many more follow.
#[inline(always)]
#[tactic(auto, using(crate::proofs::SpellingWidths::block_is_narrow), unfolding(crate::specs::AttributeSkipping::look_at_value))]
fn look<R: Reader>(place: &mut R, encoding: Encoding, form: DwForm) -> Result<u64, Error>
    ensures { ReturnsAs (λ more. (more, R.view place.new)) result
        (look_at_value encoding form.0 (R.view place.old)) }
{
    let form = read_form(place, form)?;
    match spelling_of(encoding, form) {
        Spelling::Address => Ok(u64::from(encoding.address_size)),
        Spelling::Fixed(width) => Ok(u64::from(width)),
        Spelling::Sixteen => Ok(16),
        Spelling::Constant => Ok(0),
        Spelling::Block(width) => read_fixed(place, width),
        Spelling::LongBlock => read_length(place),
        Spelling::Unsigned | Spelling::Signed => {
            place.skip_leb128()?;
            Ok(0)
        }
        Spelling::Text => {
            skip_string(place)?;
            Ok(0)
        }
        Spelling::Indirect | Spelling::Unknown => Err(Error::UnknownForm(form)),
    }
}

// Skips a run before a value that must be looked at, and looks at it: returns the run after it. It
// isn't compiled into the loop over the values, most of which have a width of their own.
fn look_after<R: Reader>(
    place: &mut R,
    encoding: Encoding,
    form: DwForm,
    run: u64,
) -> Result<u64, Error>
    requires { width_of encoding form.0 ≡ None }
    ensures { (ways : List Way)
        → skip_ways run (way_of encoding form.0 ∷ ways) (R.view place.old)
        ≡ and_then result (λ more. skip_ways more ways (R.view place.new)) }
{
    skip_run(place, run)?;
    look(place, encoding, form)
}

// Adds the width of a value that isn't looked at to the run before it.
#[inline(always)]
fn widened<R: Reader>(
    place: &R,
    encoding: Encoding,
    form: DwForm,
    run: u64,
    width: u8,
) -> Result<u64, Error>
    requires { Some width ≡ width_of encoding form.0 }
    ensures { (ways : List Way)
        → skip_ways run (way_of encoding form.0 ∷ ways) (R.view place.now)
        ≡ and_then result (λ more. skip_ways more ways (R.view place.now)) }
{
    // There are fewer bytes than 64 bits count, so a longer run goes past the end.
    let _bytes = place.as_bytes();
    run.checked_add(u64::from(width))
        .ok_or(Error::OffsetSumOverflow)
}

// The run up to the first value that must be looked at, and the declarations from that one on. Most
// values are skipped here, by one sum each.
#[inline(always)]
fn run_to_look<'a, R: Reader>(
    place: &R,
    encoding: Encoding,
    specifications: &'a [AttributeSpecification],
    run: u64,
) -> Result<(u64, &'a [AttributeSpecification]), Error>
    ensures run { skip_bytes_and_values run encoding (map attribute_view specifications.now)
        (R.view place.now)
        ≡ and_then result (λ f. skip_bytes_and_values f.0 encoding (map attribute_view f.1.now)
        (R.view place.now)) }
    ensures look { IfOk result (λ f. BeginsWithLook encoding (map attribute_view f.1.now)) }
    ensures fewer { IfOk result (λ f. length f.1.now ≤ length specifications.now) }
{
    let mut run = run;
    let mut left = specifications;
    while let [specification, rest @ ..] = left {
        let form = specification.form();
        let Some(width) = fixed_width(encoding, form) else {
            return Ok((run, left));
        };
        run = widened(place, encoding, form, run, width)?;
        left = rest;
    }
    Ok((run, left))
}

// Skips bytes and then the values that declarations describe, and where it is refused leaves a
// reader that may have moved. Compiled into its caller, as those are that call it: a call for each
// entry takes longer.
#[inline(always)]
fn skip_bytes_and_values<R: Reader>(
    place: &mut R,
    encoding: Encoding,
    count: u64,
    specifications: &[AttributeSpecification],
) -> Result<(), Error>
    ensures { ReturnsAs (λ u. (u, R.view place.new)) result
        (skip_bytes_and_values count encoding (map attribute_view specifications.now)
        (R.view place.old)) }
{
    let (mut run, mut left) = run_to_look(place, encoding, specifications, count)?;
    while let [specification, rest @ ..] = left {
        let more = look_after(place, encoding, specification.form(), run)?;
        (run, left) = run_to_look(place, encoding, rest, more)?;
    }
    skip_run(place, run)
}

/// Skips the values of an entry of a declaration, by their widths alone: where their forms say how
/// many bytes the first have, these are skipped at once. Takes no memory. A refusal leaves a reader
/// that may have moved.
#[inline(always)]
#[tactic(auto, unfolding(crate::specs::AttributeSkipping::skip_values))]
pub fn skip_declared<R: Reader>(
    place: &mut R,
    encoding: Encoding,
    abbreviation: &Abbreviation<'_>,
) -> Result<(), Error>
    ensures { ReturnsAs (λ u. (u, R.view place.new)) result
        (skip_values encoding abbreviation.now.attributes (R.view place.old)) }
{
    let widths = abbreviation.fixed_widths();
    let left = &abbreviation.attributes()[widths.attributes()..];
    skip_bytes_and_values(place, encoding, widths.bytes(encoding) as u64, left)
}

// How many bytes the values take that declarations describe.
#[inline(always)]
#[tactic(auto, unfolding(crate::specs::AttributeSkipping::skip_values))]
fn bytes_to_skip<R: Reader>(
    reader: &R,
    encoding: Encoding,
    specifications: &[AttributeSpecification],
) -> Result<usize, Error>
    ensures within { IfOk result (λ n. n ≤ length (R.view reader.now).bytes) }
    ensures value { ReturnsAs (λ n. (tt, after n (R.view reader.now))) result
        (skip_values encoding (map attribute_view specifications.now) (R.view reader.now)) }
{
    let mut place = borrowed(reader);
    skip_bytes_and_values(&mut place, encoding, 0, specifications)?;
    Ok(bytes_before(&place, reader))
}

/// Skips the values that declarations describe, by their widths alone: a number isn't judged,
/// except a length and the number of a form. Takes no memory. A refusal leaves the reader as it
/// was.
#[inline(always)]
pub fn skip_attributes<R: Reader>(
    reader: &mut R,
    encoding: Encoding,
    specifications: &[AttributeSpecification],
) -> Result<(), Error>
    ensures value { Reads result (R.view reader.old) (R.view reader.new)
        (skip_values encoding (map attribute_view specifications.now) (R.view reader.old)) }
    // Where reading the attributes succeeds, this does and leaves the same.
    ensures as_read { (limit : ℕ) (all : List RawAttribute) (rest : View)
        → attributes limit encoding (map attribute_view specifications.now) (R.view reader.old)
        ≡ Ok (all, rest)
        → (result ≡ Ok tt) × (R.view reader.new ≡ rest) }
{
    let count = bytes_to_skip(reader, encoding, specifications)?;
    reader.advance(count);
    Ok(())
}

/// Skips the values of an entry of a declaration, by their widths alone. Takes no memory. A refusal
/// leaves the reader as it was.
#[inline(always)]
pub fn skip_entry<R: Reader>(
    reader: &mut R,
    encoding: Encoding,
    abbreviation: &Abbreviation<'_>,
) -> Result<(), Error>
    ensures { Reads result (R.view reader.old) (R.view reader.new)
        (skip_values encoding abbreviation.now.attributes
        (R.view reader.old)) }
{
    let mut place = borrowed(reader);
    skip_declared(&mut place, encoding, abbreviation)?;
    let count = bytes_before(&place, reader);
    reader.advance(count);
    Ok(())
}

/// What reads as attributes is skipped, and what is left is the same.
pub fn skipping_follows_reading()
    ensures { (limit : ℕ) (encoding : Encoding) (specifications : List Attribute)
        (view rest : View) (all : List RawAttribute)
        → attributes limit encoding specifications view ≡ Ok (all, rest)
        → skip_values encoding specifications view ≡ Ok (tt, rest) }
{}

/// The bytes between two places where bytes must be looked at are one run.
pub fn skips_by_runs()
    ensures { SkipsByRuns }
{}
