//! Entries with the fields that most tables have, in their usual order: each is read at once, from
//! borrowed bytes. All contents and forms are in `table_entries` and `field_values`: read those
//! first. Here the same is spelled again for speed; what isn't spelled here, and what is
//! refused, is left to them.

ghost use Rattle.std.specs.Prelude.{◌≡◌, ◌≤◌, IfSome, Ok, Some};
ghost use Rattle.gimli_units_headers.specs.Parsers.{map_value, null_terminated};
ghost use Rattle.gimli_units_headers.specs.View.{after, bytes_left};
ghost use Rattle.gimli_units_forms.specs.AttributeMeanings.{unsigned_of};
ghost use Rattle.gimli_units_forms.specs.AttributeValues.{raw_value_of};
ghost use Rattle.gimli_lines_header.specs.TableEntries.{entry_value, digest_of, directory_entry, file_entry};
ghost use Rattle.gimli_lines_header.specs.UsualFormats.{usual_formats};

use crate::field_values::{digest_bytes, read_number, read_word};
use crate::file::FileEntry;
use crate::formats::FileEntryFormat;
use gimli_units_forms::{AttributeValue, borrowed, bytes_before};
use gimli_units_headers::{
    DW_FORM_data1, DW_FORM_data2, DW_FORM_data16, DW_FORM_line_strp, DW_FORM_string, DW_FORM_strp,
    DW_FORM_udata, DW_LNCT_MD5, DW_LNCT_directory_index, DW_LNCT_path, DebugLineStrOffset,
    DebugStrOffset, DwForm, Encoding, EndianSlice, Endianity, Reader, ReaderOffset,
};

// The fields of entries, where they are usual: the forms of the path and of the directory's number,
// whose values may be in any form.
#[derive(Clone, Copy)]
pub(crate) enum UsualFields {
    // A path.
    Path(DwForm),
    // A path and the number of a directory.
    PathAndDirectory(DwForm, DwForm),
    // The same, and a digest of sixteen bytes.
    PathDirectoryAndDigest(DwForm, DwForm),
}

// The fields that formats describe.
pub(crate) fn usual_fields(formats: &[FileEntryFormat]) -> Option<UsualFields>
    ensures { IfSome result (λ fields. usual_formats fields ≡ formats.now) }
{
    match formats {
        [path] if path.content_type == DW_LNCT_path => Some(UsualFields::Path(path.form)),
        [path, directory]
            if path.content_type == DW_LNCT_path
                && directory.content_type == DW_LNCT_directory_index => {
            Some(UsualFields::PathAndDirectory(path.form, directory.form))
        }
        [path, directory, digest]
            if path.content_type == DW_LNCT_path
                && directory.content_type == DW_LNCT_directory_index
                && digest.content_type == DW_LNCT_MD5
                && digest.form == DW_FORM_data16 => {
            Some(UsualFields::PathDirectoryAndDigest(path.form, directory.form))
        }
        _ => None,
    }
}

// How many entries a number of bytes can hold, where the fields are usual: a path takes a byte at
// least, as a number does.
pub(crate) fn most_entries(bytes: u64, usual: Option<UsualFields>) -> u64
    ensures { result ≤ bytes }
{
    match usual {
        Some(UsualFields::Path(_)) => bytes,
        Some(UsualFields::PathAndDirectory(_, _)) => bytes / 2,
        Some(UsualFields::PathDirectoryAndDigest(_, _)) => bytes / 18,
        None => 0,
    }
}

// ---- values

// The text that an entry begins with.
#[inline(always)]
fn read_text<R: Reader>(place: &mut EndianSlice<'_, R::Endian>, input: &R) -> Option<R>
    requires { place.old ≡ R.view input.now }
    ensures { IfSome result (λ text. null_terminated place.old ≡ Ok (R.view text, place.new)) }
{
    let length = place.find(0)?;
    let Ok(text) = input.copy_part(0, length) else {
        return None;
    };
    place.advance(length.checked_add(1)?);
    Some(text)
}

// The path that an entry begins with.
#[tactic(auto, using(crate::proofs::FieldValues::path_forms))]
#[inline(always)]
fn read_path<R: Reader>(
    place: &mut EndianSlice<'_, R::Endian>,
    input: &R,
    encoding: Encoding,
    form: DwForm,
) -> Option<AttributeValue<R>>
    requires { place.old ≡ R.view input.now }
    ensures { IfSome result (λ path. entry_value R.Offset.limit encoding form.0 place.old
        ≡ Ok (raw_value_of R.view R.Offset.count path, place.new)) }
{
    match form {
        DW_FORM_line_strp => {
            let Ok(offset) = read_word::<R::Offset, _>(place, encoding.format) else {
                return None;
            };
            Some(AttributeValue::DebugLineStrRef(DebugLineStrOffset(offset)))
        }
        DW_FORM_strp => {
            let Ok(offset) = read_word::<R::Offset, _>(place, encoding.format) else {
                return None;
            };
            Some(AttributeValue::DebugStrRef(DebugStrOffset(offset)))
        }
        DW_FORM_string => {
            let text = read_text(place, input)?;
            Some(AttributeValue::String(text))
        }
        _ => None,
    }
}

// The number of a directory.
#[tactic(auto, using(crate::proofs::FieldValues::directory_forms))]
#[inline(always)]
fn read_directory<O: ReaderOffset, E: Endianity>(
    place: &mut EndianSlice<'_, E>,
    encoding: Encoding,
    form: DwForm,
) -> Option<u64>
    ensures { IfSome result (λ number.
        map_value unsigned_of (entry_value O.limit encoding form.0) place.old
        ≡ Ok (Some number, place.new)) }
{
    match form {
        DW_FORM_udata => match read_number(place) {
            Ok(number) => Some(number),
            Err(_) => None,
        },
        DW_FORM_data1 => match place.read_u8() {
            Ok(number) => Some(u64::from(number)),
            Err(_) => None,
        },
        DW_FORM_data2 => match place.read_u16() {
            Ok(number) => Some(u64::from(number)),
            Err(_) => None,
        },
        _ => None,
    }
}

// A digest of sixteen bytes.
#[tactic(auto, using(crate::proofs::FieldValues::data_16_is))]
#[inline(always)]
fn read_digest<O: ReaderOffset, E: Endianity>(
    place: &mut EndianSlice<'_, E>,
    encoding: Encoding,
) -> Option<[u8; 16]>
    ensures { IfSome result (λ digest. map_value (digest_of place.old.is_big)
        (entry_value O.limit encoding DW_FORM_data16.0) place.old ≡ Ok (Some digest, place.new)) }
{
    let endian = Reader::endian(place);
    match place.read_u128() {
        Ok(number) => Some(digest_bytes(endian, number)),
        Err(_) => None,
    }
}

// ---- entries

// The file that an input begins with.
#[inline(always)]
fn read_file<R: Reader>(
    place: &mut EndianSlice<'_, R::Endian>,
    input: &R,
    encoding: Encoding,
    fields: UsualFields,
) -> Option<FileEntry<R>>
    requires { place.old ≡ R.view input.now }
    ensures { IfSome result (λ file.
        file_entry R.Offset.limit encoding (usual_formats fields) place.old
        ≡ Ok (file, place.new)) }
{
    match fields {
        UsualFields::Path(_) => None,
        UsualFields::PathAndDirectory(path, directory) => {
            let path = read_path(place, input, encoding, path)?;
            let directory = read_directory::<R::Offset, R::Endian>(place, encoding, directory)?;
            Some(FileEntry::in_directory(path, directory, [0; 16]))
        }
        UsualFields::PathDirectoryAndDigest(path, directory) => {
            let path = read_path(place, input, encoding, path)?;
            let directory = read_directory::<R::Offset, R::Endian>(place, encoding, directory)?;
            let digest = read_digest::<R::Offset, R::Endian>(place, encoding)?;
            Some(FileEntry::in_directory(path, directory, digest))
        }
    }
}

// The same, and how many bytes it takes.
#[inline(always)]
pub(crate) fn parse_file<R: Reader>(
    input: &R,
    encoding: Encoding,
    fields: UsualFields,
) -> Option<(FileEntry<R>, usize)>
    ensures value { IfSome result (λ f.
        file_entry R.Offset.limit encoding (usual_formats fields) (R.view input.now)
        ≡ Ok (f.0, after f.1 (R.view input.now))) }
    ensures within { IfSome result (λ f. f.1 ≤ bytes_left (R.view input.now)) }
{
    let mut place = borrowed(input);
    let file = read_file(&mut place, input, encoding, fields)?;
    let count = bytes_before(&place, input);
    Some((file, count))
}

// The directory that an input begins with, and how many bytes it takes.
#[inline(always)]
pub(crate) fn parse_directory<R: Reader>(
    input: &R,
    encoding: Encoding,
    fields: UsualFields,
) -> Option<(AttributeValue<R>, usize)>
    ensures value { IfSome result (λ d.
        directory_entry R.Offset.limit encoding (usual_formats fields) (R.view input.now)
        ≡ Ok (raw_value_of R.view R.Offset.count d.0, after d.1 (R.view input.now))) }
    ensures within { IfSome result (λ d. d.1 ≤ bytes_left (R.view input.now)) }
{
    let UsualFields::Path(form) = fields else {
        return None;
    };
    let mut place = borrowed(input);
    let path = read_path(&mut place, input, encoding, form)?;
    let count = bytes_before(&place, input);
    Some((path, count))
}
