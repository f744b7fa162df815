//! The pieces of a header beside its texts.

ghost use Rattle.std.specs.Prelude.{◌≡◌, ◌<◌, ◌++◌, ◌∷◌, [], length, Ok, OnOk, IfOk, IfErr, if◌then◌else◌};
ghost use Rattle.gimli_lines_write_tables.specs.WriteError.TheVariants.{Memory};
ghost use Rattle.gimli_lines_write_tables.specs.Spelling.{unsigned_string};
ghost use Rattle.gimli_lines_write_tables.specs.EntryBytes.{Continues};
ghost use Rattle.gimli_lines_write_tables.specs.RowPieces.{when};
ghost use Rattle.gimli_lines_write_spec.specs.EntryFields.{file_formats, spelled_format, spelled_formats, field_format};
ghost use Rattle.gimli_lines_write_spec.specs.HeaderSpelling.{spelled_parameters, spelled_opcodes, spelled_sizes};
ghost use Rattle.gimli_lines_write_unit.specs.HeaderContents.{details_of};

use crate::details::FileDetails;
use gimli_lines_write_spec::FileEntryFormat;
use gimli_lines_write_tables::{
    DW_FORM_data16, DW_FORM_udata, DW_LNCT_LLVM_source, DW_LNCT_MD5, DW_LNCT_directory_index,
    DW_LNCT_path, DW_LNCT_size, DW_LNCT_timestamp, DwForm, DwLnct, Encoding, Error, LineRules,
    Writer,
};
use std::alloc::Global;

// Writes a byte where a test holds.
fn write_byte_if<W: Writer>(w: &mut W, present: bool, byte: u8) -> Result<(), Error>
    ensures { Continues result (W.contents w.old) (W.contents w.new)
        (Ok (if present then byte ∷ [] else [])) }
{
    if present {
        return w.write_u8(byte);
    }
    Ok(())
}

/// Writes a number where a test holds.
pub fn write_number_if<W: Writer>(w: &mut W, present: bool, number: u64) -> Result<(), Error>
    ensures { Continues result (W.contents w.old) (W.contents w.new)
        (Ok (if present then unsigned_string number else [])) }
{
    if present {
        return w.write_uleb128(number);
    }
    Ok(())
}

/// Writes bytes where a test holds.
pub fn write_bytes_if<W: Writer>(w: &mut W, present: bool, bytes: &[u8]) -> Result<(), Error>
    ensures { Continues result (W.contents w.old) (W.contents w.new)
        (Ok (if present then bytes.now else [])) }
{
    if present {
        return w.write(bytes);
    }
    Ok(())
}

// Writes the parameters of special opcodes.
fn write_parameters<W: Writer>(w: &mut W, rules: LineRules) -> Result<(), Error>
    ensures { Continues result (W.contents w.old) (W.contents w.new)
        (Ok (spelled_parameters rules)) }
{
    let encoding = rules.line_encoding;
    w.write_u8(encoding.minimum_instruction_length)?;
    write_byte_if(
        w,
        rules.encoding.version >= 4,
        encoding.maximum_operations_per_instruction,
    )?;
    w.write(&[
        u8::from(encoding.default_is_stmt),
        encoding.line_base.cast_unsigned(),
        encoding.line_range,
    ])
}

/// Writes the fields before the tables: the parameters of special opcodes, and the opcodes.
pub fn write_start<W: Writer>(w: &mut W, rules: LineRules) -> Result<(), Error>
    ensures { Continues result (W.contents w.old) (W.contents w.new)
        (Ok (spelled_parameters rules ++ spelled_opcodes)) }
{
    write_parameters(w, rules)?;
    w.write(&[13, 0, 1, 1, 1, 1, 0, 0, 0, 1, 0, 0, 1])
}

/// Writes the version, and in version 5 the sizes of an address and of a segment selector, which
/// has none.
pub fn write_sizes<W: Writer>(w: &mut W, encoding: Encoding) -> Result<(), Error>
    ensures { Continues result (W.contents w.old) (W.contents w.new)
        (Ok (spelled_sizes encoding (W.contents w.old).is_big)) }
{
    w.write_u16(encoding.version)?;
    write_bytes_if(w, encoding.version > 4, &[encoding.address_size, 0])
}

// Writes a format.
fn write_format<W: Writer>(w: &mut W, format: &FileEntryFormat) -> Result<(), Error>
    ensures { Continues result (W.contents w.old) (W.contents w.new)
        (Ok (spelled_format format.now)) }
{
    w.write_uleb128(u64::from(format.content_type.0))?;
    w.write_uleb128(u64::from(format.form.0))
}

// A format.
fn entry_format(content_type: DwLnct, form: DwForm) -> FileEntryFormat
    ensures { result ≡ field_format content_type.0 form.0 }
{
    FileEntryFormat { content_type, form }
}

// A format after others where a test holds.
fn push_if(
    formats: &mut Vec<FileEntryFormat>,
    present: bool,
    content_type: DwLnct,
    form: DwForm,
) -> Result<(), Error>
    ensures ok { OnOk result (formats.new.items ≡ formats.old.items
        ++ when present (field_format content_type.0 form.0)) }
    ensures refusal { IfErr result (λ e. e ≡ Memory) }
{
    if present {
        formats.push(entry_format(content_type, form))?;
    }
    Ok(())
}

/// The formats of files in version 5.
pub fn file_formats(
    alloc: Global,
    details: FileDetails,
    path_form: DwForm,
    source_form: DwForm,
) -> Result<Vec<FileEntryFormat>, Error>
    ensures ok { IfOk result (λ formats. formats.items ≡ file_formats (details_of details)
        path_form.0 source_form.0) }
    ensures refusal { IfErr result (λ e. e ≡ Memory) }
{
    let mut formats = Vec::new(alloc);
    push_if(&mut formats, true, DW_LNCT_path, path_form)?;
    push_if(&mut formats, true, DW_LNCT_directory_index, DW_FORM_udata)?;
    push_if(
        &mut formats,
        details.has_timestamp,
        DW_LNCT_timestamp,
        DW_FORM_udata,
    )?;
    push_if(&mut formats, details.has_size, DW_LNCT_size, DW_FORM_udata)?;
    push_if(&mut formats, details.has_md5, DW_LNCT_MD5, DW_FORM_data16)?;
    push_if(
        &mut formats,
        details.has_source,
        DW_LNCT_LLVM_source,
        source_form,
    )?;
    Ok(formats)
}

/// Writes formats, and before them how many there are.
pub fn write_formats<W: Writer>(w: &mut W, formats: &[FileEntryFormat]) -> Result<(), Error>
    requires { length formats.now < 256 }
    ensures { Continues result (W.contents w.old) (W.contents w.new)
        (Ok (spelled_formats formats.now)) }
{
    w.write_u8(formats.len() as u8)?;
    for format in formats {
        write_format(w, format)?;
    }
    Ok(())
}
