//! Units of `.debug_line`.

ghost use Rattle.std.specs.Prelude.{◌≡◌, [], OnOk, OnErr, IfErr};
ghost use Rattle.gimli_lines_write_tables.specs.EntryBytes.{Continues};
ghost use Rattle.gimli_lines_write_tables.specs.FileTables.{in_header};
ghost use Rattle.gimli_lines_write_unit.specs.HeaderContents.{header_tables, strings_after, line_strings_after, empty_form_of, AllKnown, GainsEmpty};
ghost use Rattle.gimli_lines_write_unit.specs.HeaderBytes.{header_bytes};
ghost use Rattle.gimli_lines_write_unit.specs.UnitBytes.{body_with_header, with_length, unit_with_length, IsSupported, IsRefused, unit_bytes, Makes};

use crate::details::FileDetails;
use crate::header::HeaderTables;
use crate::pieces::write_sizes;
use crate::sources::empty_text;
use gimli_lines_write_tables::{
    EndianVec, Endianity, Error, FileTable, LineRules, LineStringTable, RowsBuilder, StringTable,
    Writer,
};
use std::alloc::Global;

// Writes what follows the first length.
fn write_body<W: Writer>(
    alloc: Global,
    w: &mut W,
    rows: &RowsBuilder,
    header: &[u8],
) -> Result<(), Error>
    ensures { Continues result (W.contents w.old) (W.contents w.new)
        (body_with_header W.address_of (W.contents w.old).is_big rows.now.rules header.now
        rows.now.entries) }
{
    let encoding = rows.rules().encoding;
    write_sizes(w, encoding)?;
    w.write_udata(header.len() as u64, encoding.format.word_size())?;
    w.write(header)?;
    rows.write(alloc, w)
}

// Writes a length and what it counts, after it.
fn write_with_length<W: Writer>(
    alloc: Global,
    w: &mut W,
    rows: &RowsBuilder,
    header: &[u8],
) -> Result<(), Error>
    ensures { Continues result (W.contents w.old) (W.contents w.new)
        (with_length (W.contents w.old).is_big rows.now.rules.encoding.format
        (body_with_header W.address_of (W.contents w.old).is_big rows.now.rules header.now
        rows.now.entries)) }
{
    let format = rows.rules().encoding.format;
    let place = w.write_initial_length(format)?;
    let start = w.len();
    write_body(alloc, w, rows, header)?;
    let length = w.len() - start;
    w.write_initial_length_at(place, length as u64, format)
}

// The fields of a header after its second length.
fn header_of<E: Endianity>(
    alloc: Global,
    order: E,
    rules: LineRules,
    tables: &HeaderTables<'_>,
) -> Result<EndianVec<E>, Error>
    requires { tables.now.version ≡ rules.encoding.version }
    ensures { Makes (λ header. header.bytes) result
        (header_bytes (E.is_big order) rules tables.now.listed) }
{
    let mut header = EndianVec::new(alloc, order);
    tables.write_header(alloc, &mut header, rules)?;
    Ok(header)
}

// Writes a unit of a version that has such a header.
fn write_with_tables<W: Writer>(
    alloc: Global,
    w: &mut W,
    rows: &RowsBuilder,
    tables: &HeaderTables<'_>,
) -> Result<(), Error>
    requires { tables.now.version ≡ rows.now.rules.encoding.version }
    ensures { Continues result (W.contents w.old) (W.contents w.new)
        (unit_with_length W.address_of (W.contents w.old).is_big rows.now.rules tables.now.listed
        rows.now.entries) }
{
    let header = header_of(alloc, w.endian(), rows.rules(), tables)?;
    write_with_length(alloc, w, rows, header.slice())
}

// Refuses rules that no unit is written with.
fn check_rules(rules: LineRules) -> Result<(), Error>
    ensures ok { OnOk result (IsSupported rules) }
    ensures err { IfErr result (IsRefused rules) }
{
    let version = rules.encoding.version;
    if version < 2 || version > 5 {
        return Err(Error::UnsupportedVersion);
    }
    if version < 4 && rules.line_encoding.maximum_operations_per_instruction > 1 {
        return Err(Error::NeedVersion);
    }
    Ok(())
}

/// Writes a unit: the header of the directories and files, and the rows' program. Texts by
/// reference are those of the tables, one of which gains the empty text where a file has no text
/// and others have one there. Versions other than 2 to 5 are refused, below version 5 texts by
/// reference, below version 4 more than one operation an instruction, in version 5 texts of two
/// forms in one list. Refused, the writer may have a prefix of the unit.
#[tactic(auto, using(crate::proofs::LengthPatches::extends_self, crate::proofs::EmptyTexts::gains))]
pub fn write_unit<W: Writer>(
    alloc: Global,
    w: &mut W,
    rows: &RowsBuilder,
    tables: &FileTable,
    details: FileDetails,
    strings: &mut StringTable,
    line_strings: &mut LineStringTable,
) -> Result<(), Error>
    requires same { tables.now.version ≡ rows.now.rules.encoding.version }
    requires known { AllKnown strings.old line_strings.old tables.now details (in_header []) }
    ensures bytes { Continues result (W.contents w.old) (W.contents w.new)
        (unit_bytes W.address_of (W.contents w.old).is_big rows.now.rules
        (header_tables strings.old line_strings.old tables.now details) rows.now.entries) }
    ensures strings { OnOk result (strings.new ≡ strings_after (empty_form_of tables.now details)
        strings.old) }
    ensures line_strings { OnOk result (line_strings.new
        ≡ line_strings_after (empty_form_of tables.now details) line_strings.old) }
    ensures strings_at_refusal { OnErr result (GainsEmpty strings.old strings.new) }
    ensures line_strings_at_refusal { OnErr result (GainsEmpty line_strings.old line_strings.new) }
{
    let rules = rows.rules();
    check_rules(rules)?;
    let version = rules.encoding.version;
    let empty = empty_text(alloc, tables, version, details, strings, line_strings)?;
    let tables = HeaderTables::new(details, strings, line_strings, tables, &empty);
    write_with_tables(alloc, w, rows, &tables)
}
