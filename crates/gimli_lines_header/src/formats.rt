//! The formats of directory and file entries in version 5.

ghost use Rattle.std.specs.Prelude.{◌≡◌};
ghost use Rattle.gimli_units_headers.specs.Calls.{ReturnsAs, ReturnsAsOrNoMemory};
ghost use Rattle.gimli_units_headers.specs.Repetition.{times};
ghost use Rattle.gimli_lines_header.specs.TableEntries.{entry_format, entry_formats, has_one_path};

use gimli_units_headers::{DW_LNCT_path, DwForm, DwLnct, Error, Reader};
use std::alloc::Global;

/// What a field of directory or file entries holds, and the form of its values (DWARF 5, 6.2.4.1).
/// All contents from 0xffff on are 0xffff here, which the standard doesn't number.
#[derive(Clone, Copy, Debug, PartialEq, Eq)]
pub struct FileEntryFormat {
    pub content_type: DwLnct,
    pub form: DwForm,
}

// A format.
#[tactic(auto, unfolding(crate::specs::TableEntries::entry_format))]
pub(crate) fn parse_format<R: Reader>(input: &mut R) -> Result<FileEntryFormat, Error>
    ensures { ReturnsAs (λ format. (format, R.view input.new)) result
        (entry_format (R.view input.old)) }
{
    let content = input.read_uleb128()?;
    let form = DwForm(input.read_uleb128_u16()?);
    Ok(FileEntryFormat {
        content_type: DwLnct(content.min(0xffff) as u16),
        form,
    })
}

// `count` formats.
fn parse_counted<R: Reader>(
    alloc: Global,
    input: &mut R,
    count: u8,
) -> Result<Vec<FileEntryFormat>, Error>
    ensures { ReturnsAsOrNoMemory (λ formats. (formats.items, R.view input.new)) result
        (times count entry_format (R.view input.old)) }
{
    let mut formats = Vec::new(alloc);
    for _field in 0..count {
        formats.push(parse_format(input)?)?;
    }
    Ok(formats)
}

// Whether exactly one of the fields is the path.
pub(crate) fn lists_one_path(formats: &[FileEntryFormat]) -> bool
    ensures { result ≡ has_one_path formats.now }
{
    formats
        .iter()
        .filter(|format| format.content_type.0 == DW_LNCT_path.0)
        .count()
        == 1
}

// The formats of directory entries, or of file entries.
#[tactic(auto, unfolding(crate::specs::TableEntries::entry_formats))]
pub(crate) fn parse<R: Reader>(alloc: Global, input: &mut R) -> Result<Vec<FileEntryFormat>, Error>
    ensures { ReturnsAsOrNoMemory (λ formats. (formats.items, R.view input.new)) result
        (entry_formats (R.view input.old)) }
{
    let count = input.read_u8()?;
    let formats = parse_counted(alloc, input, count)?;
    if !lists_one_path(&formats) {
        return Err(Error::MissingFileEntryFormatPath);
    }
    Ok(formats)
}
