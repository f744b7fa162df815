//! A table's units, emitted one after the other.

ghost use Rattle.std.specs.Prelude.{◌≡◌, ◌<◌, ◌+◌, ◌^◌, nat_le, [], All, map, length, Ok, IfOk, IfErr, OnOk, if◌then◌else◌};
ghost use Rattle.linemap_emit_fits.specs.WriteError.TheVariants.{Memory};
ghost use Rattle.linemap_emit_fits.specs.EmittedRanges.{spelled_lists};
ghost use Rattle.linemap_emit_fits.specs.NumberBytes.{length_limit};
ghost use Rattle.linemap_emit_fits.specs.StringSections.{section_of};
ghost use Rattle.linemap_table.specs.TableViews.{unit_part};
ghost use Rattle.linemap_emit_fits.specs.EmittedEntries.{AllFit, attributes_of, spelled_declarations};
ghost use Rattle.linemap_emit_fits.specs.EmittedUnits.{IsWritten, spelled_unit_body, spelled_unit};
ghost use Rattle.linemap_emit_fits.specs.WriteResults.{Appends};
ghost use Rattle.linemap_emit_fits.specs.EmittedFiles.{file_number};
ghost use Rattle.linemap_emit_fits.specs.UnitEmission.{CanEmitUnit, with_unit, without_entries};
ghost use Rattle.linemap_emit_fits.specs.TableEmission.{no_units, emitted_table};
ghost use Rattle.linemap_emit_fits.specs.FittingUnits.{AllUnitsFit};
ghost use Rattle.linemap_table.specs.EmissionTargets.{encoding_of, is_big_of};
ghost use Rattle.linemap_emit_fits.specs.EmittedSections.{emitted_sections};
ghost use Rattle.linemap_emit.specs.TableEmitterSteps.{CanAddUnit, HoldsTable, sections_in, with_unit_added};

use crate::sections::Sections;
use linemap_emit_fits::{
    Encoding, EndianVec, Error, FileId, LineStringTable, RunTimeEndian, UnitEmitter, Writer,
    unit_program, write_declarations, write_lists_header, write_program, write_unit,
};
use linemap_table::{TableUnit, Target};
use std::alloc::Global;

/// What is emitted so far: line number programs, units, and the texts and range lists that their
/// entries name.
pub struct TableEmitter {
    encoding: Encoding,
    lines: EndianVec<RunTimeEndian>,
    line_strings: LineStringTable,
    info: EndianVec<RunTimeEndian>,
    emitter: UnitEmitter,
}

impl Drop for TableEmitter {
    fn drop(self) {
        let TableEmitter {
            encoding: _,
            lines: _,
            line_strings: _,
            info: _,
            emitter: _,
        } = self;
    }
}

// Writes the entries of a unit whose line number program is at an offset.
#[tactic(auto, using(crate::proofs::ServedEncodings::entries_fit, linemap_emit_laws::proofs::EmittedProgramLemmas::length_fits))]
fn write_info(
    alloc: Global,
    w: &mut EndianVec<RunTimeEndian>,
    emitter: &mut UnitEmitter,
    encoding: Encoding,
    unit: &TableUnit,
    files: &[FileId],
    line_program: u64,
) -> Result<(), Error>
    requires can_write { IsWritten encoding }
    requires same { emitter.old.encoding ≡ encoding }
    requires files { length files.now ≡ length (unit_part unit.now).files }
    requires can { CanEmitUnit encoding.address_size (unit_part unit.now) }
    requires fit { All (λ x. AllFit (2 ^ 31) encoding (attributes_of x))
        (with_unit (file_number encoding.version files.now) line_program (unit_part unit.now)
        emitter.old).entries }
    requires small { length (spelled_unit_body encoding w.old.is_big
        (with_unit (file_number encoding.version files.now) line_program (unit_part unit.now)
        emitter.old).entries) < 2 ^ 31 }
    ensures state { OnOk result
        (emitter.new ≡ without_entries (with_unit (file_number encoding.version files.now)
        line_program (unit_part unit.now) emitter.old)) }
    ensures bytes { Appends result w.old w.new
        (spelled_unit encoding w.old.is_big
        (with_unit (file_number encoding.version files.now) line_program (unit_part unit.now)
        emitter.old).entries) }
{
    emitter.unit(alloc, unit, files, line_program)?;
    write_unit(alloc, w, encoding, emitter.entries())?;
    emitter.clear_entries();
    Ok(())
}

impl TableEmitter {
    // An emitter that has emitted nothing yet.
    fn new(alloc: Global, target: Target) -> Self
        ensures { HoldsTable (encoding_of target) (is_big_of target) no_units result }
    {
        let encoding = target.encoding();
        let endian = target.endian();
        TableEmitter {
            encoding,
            lines: EndianVec::new(alloc, endian),
            line_strings: LineStringTable::new(alloc),
            info: EndianVec::new(alloc, endian),
            emitter: UnitEmitter::new(alloc, encoding, EndianVec::new(alloc, endian)),
        }
    }

    // Adds a unit.
    #[tactic(auto, using(crate::proofs::TableEmitterLemmas::unit_ready))]
    fn unit(&mut self, alloc: Global, unit: &TableUnit) -> Result<(), Error>
        requires { CanAddUnit (unit_part unit.now) self.old }
        ensures ok { OnOk result (self.new ≡ with_unit_added (unit_part unit.now) self.old) }
        ensures refusal { IfErr result (λ e. e ≡ Memory) }
    {
        let line_program = self.lines.len() as u64;
        let built = unit_program(alloc, self.encoding, &mut self.line_strings, unit)?;
        write_info(
            alloc,
            &mut self.info,
            &mut self.emitter,
            self.encoding,
            unit,
            &built.files,
            line_program,
        )?;
        write_program(
            alloc,
            &mut self.lines,
            &built.program,
            &mut self.line_strings,
        )?;
        Ok(())
    }

    // The section of the declarations.
    fn declarations(&self, alloc: Global) -> Result<Vec<u8>, Error>
        ensures ok { IfOk result (λ bytes. bytes.items ≡ spelled_declarations self.now.encoding) }
        ensures refusal { IfErr result (λ e. e ≡ Memory) }
    {
        let mut w = EndianVec::new(alloc, self.info.endian());
        write_declarations(&mut w, self.encoding)?;
        Ok(w.into_vec())
    }

    // The section of the line number programs' texts.
    fn line_texts(&self, alloc: Global) -> Result<Vec<u8>, Error>
        ensures ok { IfOk result (λ bytes. bytes.items ≡ section_of self.now.line_strings) }
        ensures refusal { IfErr result (λ e. e ≡ Memory) }
    {
        let mut w = EndianVec::new(alloc, self.info.endian());
        self.line_strings.write(&mut w)?;
        Ok(w.into_vec())
    }

    // The section of the texts.
    fn texts(&self, alloc: Global) -> Result<Vec<u8>, Error>
        ensures ok { IfOk result (λ bytes. bytes.items ≡ section_of self.now.emitter.texts) }
        ensures refusal { IfErr result (λ e. e ≡ Memory) }
    {
        let mut w = EndianVec::new(alloc, self.info.endian());
        self.emitter.write_strings(&mut w)?;
        Ok(w.into_vec())
    }

    // All sections, with those of the declarations and of the texts.
    #[tactic(auto, using(linemap_emit_laws::proofs::EmittedProgramLemmas::length_fits))]
    fn into_sections(
        self,
        alloc: Global,
        declarations: Vec<u8>,
        line_texts: Vec<u8>,
        texts: Vec<u8>,
    ) -> Result<Sections, Error>
        requires { 8 + length self.emitter.ranges.bytes < 2 ^ 31 }
        ensures ok { IfOk result (λ s. s ≡ sections_in self declarations.items line_texts.items
            texts.items) }
        ensures refusal { IfErr result (λ e. e ≡ Memory) }
    {
        let TableEmitter {
            encoding,
            lines,
            line_strings: _,
            info,
            emitter,
        } = self;
        let (ranges, rnglists) = list_sections(alloc, encoding, emitter.into_ranges())?;
        Ok(Sections::new(
            declarations,
            info.into_vec(),
            lines.into_vec(),
            line_texts,
            ranges,
            rnglists,
            texts,
        ))
    }
}

// The sections of range lists up to version 4, and from version 5 on.
fn list_sections(
    alloc: Global,
    encoding: Encoding,
    lists: EndianVec<RunTimeEndian>,
) -> Result<(Vec<u8>, Vec<u8>), Error>
    requires { 8 + length lists.bytes < length_limit encoding.format }
    ensures ranges { IfOk result (λ r. r.0.items
        ≡ (if nat_le encoding.version 4 then lists.bytes else [])) }
    ensures rnglists { IfOk result (λ r. r.1.items
        ≡ (if nat_le encoding.version 4 then []
        else spelled_lists encoding lists.is_big lists.bytes)) }
    ensures refusal { IfErr result (λ e. e ≡ Memory) }
{
    if encoding.version <= 4 {
        return Ok((lists.into_vec(), Vec::new(alloc)));
    }
    let mut w = EndianVec::new(alloc, lists.endian());
    write_lists_header(&mut w, encoding, lists.len() as u64)?;
    w.write(lists.slice())?;
    Ok((Vec::new(alloc), w.into_vec()))
}

// Emits the units, one after the other.
fn emitter_of_units(
    alloc: Global,
    target: Target,
    units: &[TableUnit],
) -> Result<TableEmitter, Error>
    requires { AllUnitsFit (encoding_of target) (is_big_of target) (map unit_part units.now)
        no_units }
    ensures ok { IfOk result
        (HoldsTable (encoding_of target) (is_big_of target)
        (emitted_table (encoding_of target) (is_big_of target) (map unit_part units.now))) }
    ensures refusal { IfErr result (λ e. e ≡ Memory) }
{
    let mut emitter = TableEmitter::new(alloc, target);
    for unit in units {
        emitter.unit(alloc, unit)?;
    }
    Ok(emitter)
}

// The sections of units that fit. Refused only when out of memory.
#[tactic(auto, using(crate::proofs::TableEmitterLemmas::lists_small, crate::proofs::TableEmitterLemmas::sections_held))]
pub(crate) fn emit_units(
    alloc: Global,
    units: &[TableUnit],
    target: Target,
) -> Result<Sections, Error>
    requires { AllUnitsFit (encoding_of target) (is_big_of target) (map unit_part units.now)
        no_units }
    ensures ok { IfOk result (λ s. s
        ≡ emitted_sections (encoding_of target) (is_big_of target) (map unit_part units.now)) }
    ensures refusal { IfErr result (λ e. e ≡ Memory) }
{
    let emitter = emitter_of_units(alloc, target, units)?;
    let declarations = emitter.declarations(alloc)?;
    let line_texts = emitter.line_texts(alloc)?;
    let texts = emitter.texts(alloc)?;
    emitter.into_sections(alloc, declarations, line_texts, texts)
}
