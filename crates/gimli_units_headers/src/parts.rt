//! The parts of a section, end to end: each a length, a header and what it is the header of.

ghost use Rattle.std.specs.Prelude.{◌≡◌, ◌≢◌, ◌+◌, ◌<◌, ◌≤◌, ℕ, IsTrue, Ok, Err};
ghost use Rattle.gimli_core_base.specs.Calls.{Returns, ReturnsOrNoMemory};
ghost use Rattle.gimli_core_base.specs.declared.common.Format.{Format};
ghost use Rattle.gimli_core_base.specs.declared.error.Error.TheVariants.{Memory};
ghost use Rattle.gimli_core_base.specs.Parsers.{Parser, value_of};
ghost use Rattle.gimli_core_base.specs.FormatSizes.{initial_length_size};
ghost use Rattle.gimli_core_base.specs.View.{bytes_left};
ghost use Rattle.gimli_core_readers.specs.Iterators.{ReadsOrEndsOrNoMemory, ComesNext};
ghost use Rattle.gimli_core_readers.specs.Tiling.{whole_section, next_offset, next_part, parts_to_come};
ghost use Rattle.gimli_core_readers.proofs.TilingLemmas.{Parts};
ghost use Rattle.gimli_units_headers.specs.SectionParts.{counted_part, part_lookup};

use gimli_core_base::error::Error;
use gimli_core_base::{Format, ReaderOffset};
use gimli_core_readers::Reader;
use std::marker::{Model, PhantomData};

// A part of a section.
pub(crate) trait SectionPart<R: Reader>: Drop {
    // A part by its offset and its length, in the bytes that the length counts.
    ghost read_in: { ℕ → ℕ → Format → Parser Self };

    ghost offset_of: { Self → ℕ };

    // The bytes of the part.
    ghost size_of: { Self → ℕ };

    // The part at an offset of its section, of the bytes after its length.
    fn parse_in(
        bytes: R,
        offset: R::Offset,
        length: R::Offset,
        format: Format,
    ) -> Result<Self, Error>
        requires counted { bytes_left (R.view bytes) ≡ R.Offset.count length }
        requires below { R.Offset.count offset
            + (initial_length_size format + R.Offset.count length) < R.Offset.limit }
        ensures value { Returns result (value_of
            (read_in (R.Offset.count offset) (R.Offset.count length) format (R.view bytes))) }
        ensures free { result ≢ Err Memory };

    // The bytes of the part.
    fn size(&self) -> R::Offset
        requires { size_of self.now < R.Offset.limit }
        ensures { R.Offset.count result ≡ size_of self.now };
}

// The parts of a section, from one of them on.
#[derive(Debug, Drop)]
pub(crate) struct SectionParts<R: Reader, P> {
    // The bytes from the next part on.
    input: R,
    section_len: R::Offset,
    of: PhantomData<P>,
}

impl<R: Reader, P> Model for SectionParts<R, P> {
    ghost use Rattle.std.specs.Prelude.{◌≤◌, length};
    ghost use Rattle.gimli_core_readers.specs.Tiling.{RemainingSection};

    ghost Value = { RemainingSection };

    ghost view = { λ s. record {
      section_length = R.Offset.count s.section_len;
      rest = R.view s.input;
    } };

    ghost invariant = { λ s. length (R.view s.input).bytes ≤ R.Offset.count s.section_len };
}

impl<R: Reader, P: SectionPart<R>> SectionParts<R, P> {
    // All parts of a section.
    pub(crate) fn new(section: &R) -> Result<Self, Error>
        ensures value { ReturnsOrNoMemory result (Ok (whole_section (R.view section.now))) }
        ensures free { IsTrue R.copies_freely → result ≢ Err Memory }
    {
        Ok(SectionParts {
            input: section.copy()?,
            section_len: section.len(),
            of: PhantomData,
        })
    }

    // The next part, none at the section's end. After a part that can't be read there are no more.
    // Takes memory only where a copy of the reader does, and changes nothing when out of memory.
    pub(crate) fn next(&mut self) -> Result<Option<P>, Error>
        // Each part takes its bytes, of which there are some.
        requires { Parts (counted_part R.Offset.limit P.read_in) P.offset_of P.size_of }
        ensures value { ReadsOrEndsOrNoMemory result self.old.rest self.new.rest
            (next_part (counted_part R.Offset.limit P.read_in) self.old) }
        ensures free { IsTrue R.copies_freely → result ≢ Err Memory }
        ensures section { self.new.section_length ≡ self.old.section_length }
        ensures order { ComesNext result
            (parts_to_come (counted_part R.Offset.limit P.read_in) self.old)
            (parts_to_come (counted_part R.Offset.limit P.read_in) self.new) }
    {
        if self.input.is_empty() {
            return Ok(None);
        }
        let bytes = self.input.copy()?;
        match parse::<R, P>(bytes, self.next_offset()) {
            Ok(part) => {
                self.input.advance(part.size().into_u64() as usize);
                Ok(Some(part))
            }
            Err(fault) => {
                self.input.empty();
                Err(fault)
            }
        }
    }

    // The offset of the next part.
    fn next_offset(&self) -> R::Offset
        ensures value { R.Offset.count result ≡ next_offset self.now }
        ensures below { R.Offset.count result + bytes_left self.now.rest < R.Offset.limit }
    {
        // The section's length is an offset.
        let _len = self.section_len.into_u64();
        self.section_len.checked_sub(self.input.len()).unwrap()
    }
}

// The part at an offset of a section.
pub(crate) fn part_at<R: Reader, P: SectionPart<R>>(
    section: &R,
    offset: R::Offset,
) -> Result<P, Error>
    ensures value { ReturnsOrNoMemory result
        (part_lookup (counted_part R.Offset.limit P.read_in) (R.Offset.count offset)
        (R.view section.now)) }
    ensures free { IsTrue R.copies_freely → result ≢ Err Memory }
{
    // The number of bytes is an offset.
    let _bytes = section.as_bytes();
    let mut bytes = section.copy()?;
    bytes.skip(offset)?;
    parse(bytes, offset)
}

// The part at an offset of its section, of the bytes from there on.
#[tactic(auto, unfolding(crate::specs::SectionParts::counted_part))]
fn parse<R: Reader, P: SectionPart<R>>(mut bytes: R, offset: R::Offset) -> Result<P, Error>
    requires { R.Offset.count offset + bytes_left (R.view bytes) < R.Offset.limit }
    ensures value { Returns result (value_of
        (counted_part R.Offset.limit P.read_in (R.Offset.count offset) (R.view bytes))) }
    ensures free { result ≢ Err Memory }
{
    let (length, format) = bytes.read_initial_length()?;
    bytes.truncate(length)?;
    P::parse_in(bytes, offset, length, format)
}
