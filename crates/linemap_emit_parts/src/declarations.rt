//! The declarations of the entries (DWARF 5, 7.5.3).

ghost use Rattle.std.specs.Prelude.{◌≡◌, ◌++◌, ◌∷◌, [], if◌then◌else◌, true, false};
ghost use Rattle.gimli_lines_write_bytes.specs.Spelling.{unsigned_string};
ghost use Rattle.linemap_emit_parts.specs.WriteResults.{Appends};
ghost use Rattle.linemap_emit_parts.specs.EmittedEntries.{declaration_for, offset_form, spelled_declaration, spelled_declarations};
ghost use Rattle.linemap_emit_parts.specs.declared.entries.Entry.TheVariants.{CompileUnit, AbstractFunction, Function, Call};

use gimli_core_base::DW_AT_abstract_origin;
use gimli_core_base::constants::DW_FORM_ref4;
use gimli_lines_write_bytes::{
    DW_AT_call_column, DW_AT_call_file, DW_AT_call_line, DW_AT_comp_dir, DW_AT_low_pc, DW_AT_name,
    DW_AT_ranges, DW_AT_stmt_list, DW_FORM_addr, DW_FORM_data4, DW_FORM_data8, DW_FORM_sec_offset,
    DW_FORM_strp, DW_FORM_udata, DW_TAG_compile_unit, DW_TAG_inlined_subroutine, DW_TAG_subprogram,
    DwAt, DwForm, DwTag, Encoding, EndianVec, Error, Format, RunTimeEndian, Writer,
};

// The form of offsets into other sections than that of strings: data up to version 3.
fn offset_form(encoding: Encoding) -> DwForm
    ensures { result.0 ≡ offset_form encoding }
{
    if encoding.version > 3 {
        return DW_FORM_sec_offset;
    }
    match encoding.format {
        Format::Dwarf32 => DW_FORM_data4,
        Format::Dwarf64 => DW_FORM_data8,
    }
}

// Writes what comes before the attributes of a declaration.
fn write_start(
    w: &mut EndianVec<RunTimeEndian>,
    code: u64,
    tag: DwTag,
    has_children: bool,
) -> Result<(), Error>
    ensures { Appends result w.old w.new
        (unsigned_string code ++ unsigned_string tag.0 ++ (if has_children then 1 else 0) ∷ []) }
{
    w.write_uleb128(code)?;
    w.write_uleb128(tag.0 as u64)?;
    w.write_u8(if has_children { 1 } else { 0 })
}

// Writes an attribute of a declaration.
fn write_attribute(w: &mut EndianVec<RunTimeEndian>, name: DwAt, form: DwForm) -> Result<(), Error>
    ensures { Appends result w.old w.new (unsigned_string name.0 ++ unsigned_string form.0) }
{
    w.write_uleb128(name.0 as u64)?;
    w.write_uleb128(form.0 as u64)
}

// Writes the attributes of a name and of ranges.
fn write_name_and_ranges(w: &mut EndianVec<RunTimeEndian>, encoding: Encoding) -> Result<(), Error>
    ensures { Appends result w.old w.new
        (unsigned_string DW_AT_name.0 ++ unsigned_string DW_FORM_strp.0
        ++ unsigned_string DW_AT_ranges.0
        ++ unsigned_string (offset_form encoding)) }
{
    write_attribute(w, DW_AT_name, DW_FORM_strp)?;
    write_attribute(w, DW_AT_ranges, offset_form(encoding))
}

// Writes the attributes of a unit's name and directory.
fn write_unit_texts(w: &mut EndianVec<RunTimeEndian>) -> Result<(), Error>
    ensures { Appends result w.old w.new
        (unsigned_string DW_AT_name.0 ++ unsigned_string DW_FORM_strp.0
        ++ unsigned_string DW_AT_comp_dir.0
        ++ unsigned_string DW_FORM_strp.0) }
{
    write_attribute(w, DW_AT_name, DW_FORM_strp)?;
    write_attribute(w, DW_AT_comp_dir, DW_FORM_strp)
}

// Writes the attributes of a unit's line program, low address and ranges.
fn write_unit_offsets(w: &mut EndianVec<RunTimeEndian>, encoding: Encoding) -> Result<(), Error>
    ensures { Appends result w.old w.new
        (unsigned_string DW_AT_stmt_list.0 ++ unsigned_string (offset_form encoding)
        ++ unsigned_string DW_AT_low_pc.0
        ++ unsigned_string DW_FORM_addr.0 ++ unsigned_string DW_AT_ranges.0
        ++ unsigned_string (offset_form encoding)) }
{
    write_attribute(w, DW_AT_stmt_list, offset_form(encoding))?;
    write_attribute(w, DW_AT_low_pc, DW_FORM_addr)?;
    write_attribute(w, DW_AT_ranges, offset_form(encoding))
}

// Writes the attributes of the abstract function and of the ranges of a call.
fn write_origin_and_ranges(
    w: &mut EndianVec<RunTimeEndian>,
    encoding: Encoding,
) -> Result<(), Error>
    ensures { Appends result w.old w.new
        (unsigned_string DW_AT_abstract_origin.0 ++ unsigned_string DW_FORM_ref4.0
        ++ unsigned_string DW_AT_ranges.0
        ++ unsigned_string (offset_form encoding)) }
{
    write_attribute(w, DW_AT_abstract_origin, DW_FORM_ref4)?;
    write_attribute(w, DW_AT_ranges, offset_form(encoding))
}

// Writes the attributes of the file, line and column of a call.
fn write_call_attributes(w: &mut EndianVec<RunTimeEndian>) -> Result<(), Error>
    ensures { Appends result w.old w.new
        (unsigned_string DW_AT_call_file.0 ++ unsigned_string DW_FORM_udata.0
        ++ unsigned_string DW_AT_call_line.0
        ++ unsigned_string DW_FORM_udata.0 ++ unsigned_string DW_AT_call_column.0
        ++ unsigned_string DW_FORM_udata.0) }
{
    write_attribute(w, DW_AT_call_file, DW_FORM_udata)?;
    write_attribute(w, DW_AT_call_line, DW_FORM_udata)?;
    write_attribute(w, DW_AT_call_column, DW_FORM_udata)
}

// Writes what comes after the attributes of a declaration.
fn write_end(w: &mut EndianVec<RunTimeEndian>) -> Result<(), Error>
    ensures { Appends result w.old w.new (0 ∷ 0 ∷ []) }
{
    w.write(&[0, 0])
}

// Declares compilation units.
fn declare_unit(w: &mut EndianVec<RunTimeEndian>, encoding: Encoding) -> Result<(), Error>
    ensures { Appends result w.old w.new
        (spelled_declaration
        (declaration_for encoding DW_TAG_compile_unit.0 true (CompileUnit 0 0 0 0))) }
{
    write_start(w, 1, DW_TAG_compile_unit, true)?;
    write_unit_texts(w)?;
    write_unit_offsets(w, encoding)?;
    write_end(w)
}

// Declares functions, with or without children.
fn declare_function(
    w: &mut EndianVec<RunTimeEndian>,
    encoding: Encoding,
    has_children: bool,
) -> Result<(), Error>
    ensures { Appends result w.old w.new
        (spelled_declaration
        (declaration_for encoding DW_TAG_subprogram.0 has_children (Function has_children 0 0))) }
{
    write_start(
        w,
        if has_children { 2 } else { 3 },
        DW_TAG_subprogram,
        has_children,
    )?;
    write_name_and_ranges(w, encoding)?;
    write_end(w)
}

// Declares inlined calls, with or without children.
fn declare_call(
    w: &mut EndianVec<RunTimeEndian>,
    encoding: Encoding,
    has_children: bool,
) -> Result<(), Error>
    ensures { Appends result w.old w.new
        (spelled_declaration
        (declaration_for encoding DW_TAG_inlined_subroutine.0 has_children
        (Call has_children 0 0 0 0 0))) }
{
    write_start(
        w,
        if has_children { 4 } else { 5 },
        DW_TAG_inlined_subroutine,
        has_children,
    )?;
    write_origin_and_ranges(w, encoding)?;
    write_call_attributes(w)?;
    write_end(w)
}

// Declares abstract functions.
fn declare_abstract_function(
    w: &mut EndianVec<RunTimeEndian>,
    encoding: Encoding,
) -> Result<(), Error>
    ensures { Appends result w.old w.new
        (spelled_declaration
        (declaration_for encoding DW_TAG_subprogram.0 false (AbstractFunction 0))) }
{
    write_start(w, 6, DW_TAG_subprogram, false)?;
    write_attribute(w, DW_AT_name, DW_FORM_strp)?;
    write_end(w)
}

// Declares functions with children and without.
fn declare_functions(w: &mut EndianVec<RunTimeEndian>, encoding: Encoding) -> Result<(), Error>
    ensures { Appends result w.old w.new
        (spelled_declaration (declaration_for encoding DW_TAG_subprogram.0 true (Function true 0 0))
        ++ spelled_declaration
        (declaration_for encoding DW_TAG_subprogram.0 false (Function false 0 0))) }
{
    declare_function(w, encoding, true)?;
    declare_function(w, encoding, false)
}

// Declares inlined calls with children and without.
fn declare_calls(w: &mut EndianVec<RunTimeEndian>, encoding: Encoding) -> Result<(), Error>
    ensures { Appends result w.old w.new
        (spelled_declaration
        (declaration_for encoding DW_TAG_inlined_subroutine.0 true (Call true 0 0 0 0 0))
        ++ spelled_declaration
        (declaration_for encoding DW_TAG_inlined_subroutine.0 false (Call false 0 0 0 0 0))) }
{
    declare_call(w, encoding, true)?;
    declare_call(w, encoding, false)
}

/// Writes the declarations, in one table. Refused only when out of memory.
#[tactic(auto, using(crate::proofs::AppendedWrites::whole_table))]
pub fn write_declarations(w: &mut EndianVec<RunTimeEndian>, encoding: Encoding) -> Result<(), Error>
    ensures { Appends result w.old w.new (spelled_declarations encoding) }
{
    declare_unit(w, encoding)?;
    declare_functions(w, encoding)?;
    declare_calls(w, encoding)?;
    declare_abstract_function(w, encoding)?;
    w.write_u8(0)
}
