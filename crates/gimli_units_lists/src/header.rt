ghost use Rattle.std.specs.Prelude.{◌≡◌, ◌≢◌, IsTrue, Ok, Err};
ghost use Rattle.gimli_core_readers.specs.Calls.{ReturnsAs, ReadsOrNoMemory};
ghost use Rattle.gimli_core_readers.specs.Error.TheVariants.{Memory};
ghost use Rattle.gimli_core_readers.specs.DefaultBases.{lists_header_size};
ghost use Rattle.gimli_units_lists.specs.ListSections.{lists_header, header_fields};

use gimli_core_readers::{Encoding, Error, Format, Reader};

/// The header of a table of lists (DWARF 5, 7.28 and 7.29).
#[derive(Clone, Copy, Debug, PartialEq, Eq)]
pub struct ListsHeader {
    pub encoding: Encoding,
    /// How many offsets of lists follow the header.
    pub offset_entry_count: u32,
}

impl Default for ListsHeader {
    ghost use Rattle.gimli_units_lists.specs.ListHeaders.{default_lists_header};

    ghost is_default = { λ header. header ≡ default_lists_header };

    /// That of a 32-bit table of version 5 without offsets.
    fn default() -> Self {
        ListsHeader {
            encoding: Encoding {
                format: Format::Dwarf32,
                version: 5,
                address_size: 0,
            },
            offset_entry_count: 0,
        }
    }
}

impl ListsHeader {
    /// The bytes of the header.
    pub fn size(self) -> u8
        ensures { result ≡ lists_header_size self.encoding.format }
    {
        self.encoding.format.initial_length_size() + 8
    }

    /// The header here; the rest of its table is left after it. Takes memory only where a copy of
    /// the reader does.
    pub fn parse<R: Reader>(input: &mut R) -> Result<Self, Error>
        ensures value { ReadsOrNoMemory result (R.view input.old) (R.view input.new)
            (lists_header R.Offset.limit (R.view input.old)) }
        ensures free { IsTrue R.copies_freely → result ≢ Err Memory }
    {
        let mut rest = input.copy()?;
        let header = parse_header(&mut rest)?;
        *input = rest;
        Ok(header)
    }
}

// A length, and the fields after it.
#[tactic(auto, unfolding(crate::specs::ListSections::lists_header))]
fn parse_header<R: Reader>(input: &mut R) -> Result<ListsHeader, Error>
    ensures { ReturnsAs (λ header. (header, R.view input.new)) result
        (lists_header R.Offset.limit (R.view input.old)) }
{
    let (length, format) = input.read_initial_length()?;
    input.truncate(length)?;
    parse_fields(input, format)
}

#[tactic(auto, unfolding(crate::specs::ListSections::header_fields))]
fn parse_fields<R: Reader>(input: &mut R, format: Format) -> Result<ListsHeader, Error>
    ensures { ReturnsAs (λ header. (header, R.view input.new)) result
        (header_fields format (R.view input.old)) }
{
    let version = input.read_u16()?;
    if version != 5 {
        return Err(Error::UnknownVersion(u64::from(version)));
    }
    let address_size = input.read_address_size()?;
    if input.read_u8()? != 0 {
        return Err(Error::UnsupportedSegmentSize);
    }
    let offset_entry_count = input.read_u32()?;
    let encoding = Encoding {
        format,
        version,
        address_size,
    };
    Ok(ListsHeader {
        encoding,
        offset_entry_count,
    })
}
