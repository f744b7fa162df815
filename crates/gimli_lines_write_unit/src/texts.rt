//! The texts of a header.

ghost use Rattle.std.specs.Prelude.{◌≡◌, All, map, []};
ghost use Rattle.gimli_lines_write_tables.specs.EntryBytes.{Continues};
ghost use Rattle.gimli_lines_write_tables.specs.FileTables.{text_of};
ghost use Rattle.gimli_lines_write_spec.specs.HeaderTexts.{form_of, spelled_text};
ghost use Rattle.gimli_lines_write_unit.specs.HeaderContents.{header_text};
ghost use Rattle.gimli_lines_write_tables.specs.LineStrings.{IsKnown};
ghost use Rattle.gimli_lines_write_unit.specs.HeaderBytes.{bytes_or_refusal, all_or_refusal, mismatch, reference_refusals, text_refusals};

use gimli_lines_write_tables::{
    DW_FORM_line_strp, DW_FORM_string, DW_FORM_strp, DwForm, Encoding, Error, LineString,
    LineStringTable, StringTable, Writer,
};

/// The form of a text: string, strp or line_strp.
pub fn form_of(text: &LineString) -> DwForm
    ensures { result.0 ≡ form_of (header_text [] [] (text_of text.now)) }
{
    match text {
        LineString::String(_) => DW_FORM_string,
        LineString::StringRef(_) => DW_FORM_strp,
        LineString::LineStringRef(_) => DW_FORM_line_strp,
    }
}

// Why a text isn't written in a list of another form.
fn mismatch(version: u16) -> Error
    ensures { result ≡ mismatch version }
{
    if version <= 4 {
        Error::NeedVersion
    } else {
        Error::LineStringFormMismatch
    }
}

// Writes a text, or where it begins in its section.
#[tactic(auto, using(crate::proofs::RefusedBytes::word_is))]
fn write_text_bytes<W: Writer>(
    w: &mut W,
    encoding: Encoding,
    strings: &StringTable,
    line_strings: &LineStringTable,
    text: &LineString,
) -> Result<(), Error>
    requires { IsKnown strings.now line_strings.now (text_of text.now) }
    ensures { let t = header_text strings.now line_strings.now (text_of text.now) in
        Continues result (W.contents w.old) (W.contents w.new)
        (bytes_or_refusal (reference_refusals encoding.format t)
        (spelled_text (W.contents w.old).is_big encoding.format t)) }
{
    let size = encoding.format.word_size();
    match text {
        LineString::String(bytes) => {
            w.write(bytes.as_slice())?;
            w.write_u8(0)
        }
        LineString::StringRef(id) => w.write_udata(strings.offset(*id).0 as u64, size),
        LineString::LineStringRef(id) => w.write_udata(line_strings.offset(*id).0 as u64, size),
    }
}

/// Writes a text in a list of a form, from tables that have it.
#[tactic(auto, using(crate::proofs::TextForms::same_form))]
pub fn write_text<W: Writer>(
    w: &mut W,
    encoding: Encoding,
    form: DwForm,
    strings: &StringTable,
    line_strings: &LineStringTable,
    text: &LineString,
) -> Result<(), Error>
    requires { IsKnown strings.now line_strings.now (text_of text.now) }
    ensures { let t = header_text strings.now line_strings.now (text_of text.now) in
        Continues result (W.contents w.old) (W.contents w.new)
        (bytes_or_refusal (text_refusals encoding form.0 t)
        (spelled_text (W.contents w.old).is_big encoding.format t)) }
{
    if form_of(text).0 != form.0 {
        return Err(mismatch(encoding.version));
    }
    write_text_bytes(w, encoding, strings, line_strings, text)
}

/// Writes the texts of a list of a form, one after the other.
pub fn write_texts<W: Writer>(
    w: &mut W,
    encoding: Encoding,
    form: DwForm,
    strings: &StringTable,
    line_strings: &LineStringTable,
    texts: &[LineString],
) -> Result<(), Error>
    requires { All (λ t. IsKnown strings.now line_strings.now (text_of t)) texts.now }
    ensures { Continues result (W.contents w.old) (W.contents w.new)
        (all_or_refusal (text_refusals encoding form.0)
        (spelled_text (W.contents w.old).is_big encoding.format)
        (map (λ t. header_text strings.now line_strings.now (text_of t)) texts.now)) }
{
    for text in texts {
        write_text(w, encoding, form, strings, line_strings, text)?;
    }
    Ok(())
}
