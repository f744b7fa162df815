//! The entries of units, with their texts and range lists.

ghost use Rattle.std.specs.Prelude.{◌≡◌, ◌<◌, ◌+◌, ◌^◌, [], map, length, OnOk, IfOk, IfErr, true};
ghost use Rattle.linemap_emit_programs.specs.LookupAgreement.{lookup_range};
ghost use Rattle.gimli_lines_write_tables.specs.StringSections.{IsText, section_of};
ghost use Rattle.gimli_lines_write_tables.specs.WriteError.TheVariants.{Memory};
ghost use Rattle.linemap_emit_programs.specs.TableViews.{range_part, call_part, calls_part, function_part, unit_part};
ghost use Rattle.gimli_lines_write_tables.specs.NumberParsers.{is_address_size};
ghost use Rattle.linemap_emit_programs.specs.WriteResults.{Appends};
ghost use Rattle.linemap_emit_programs.specs.EmittedRanges.{AllWritable};
ghost use Rattle.linemap_emit_programs.specs.EmittedFiles.{file_number};
ghost use Rattle.linemap_emit_units.specs.UnitEmission.{text_offset, with_name, with_list, list_offset, with_entry, with_end_of_children, with_abstract_functions, with_function_entry, with_call, CanEmit, CanEmitCalls, CanEmitFunctions, CanEmitUnit, with_calls, with_functions, with_unit_entry, with_unit, without_entries};
ghost use Rattle.linemap_emit_units.specs.InlinedNames.{NamesAre, FunctionNamesAre, IsAmong};

use crate::file_numbers::number_in;
use crate::inlined_names::{names_of, number_of};
use gimli_lines_write_tables::{
    Encoding, EndianVec, Error, Range, RunTimeEndian, StringId, StringTable, Writer,
};
use linemap_emit_programs::{
    Entry, FileId, TableCall, TableFunction, TableRange, TableUnit, abstract_offset, lists_start,
    write_ranges,
};
use std::alloc::Global;
use std::marker::Model;

/// What is emitted so far: the texts and range lists of all units, and the entries of the current
/// unit.
pub struct UnitEmitter {
    encoding: Encoding,
    strings: StringTable,
    ranges: EndianVec<RunTimeEndian>,
    entries: Vec<Entry>,
}

impl Drop for UnitEmitter {
    fn drop(self) {
        let UnitEmitter {
            encoding: _,
            strings: _,
            ranges: _,
            entries: _,
        } = self;
    }
}

impl Model for UnitEmitter {
    ghost use Rattle.linemap_emit_units.specs.UnitEmission.{EmittedUnit};

    ghost Value = { EmittedUnit };

    ghost view = { λ e. record {
      encoding = e.encoding;
      texts = e.strings;
      ranges = e.ranges;
      entries = e.entries.items;
    } };
}

impl UnitEmitter {
    /// An emitter that has emitted nothing yet. It takes no memory.
    pub fn new(alloc: Global, encoding: Encoding, ranges: EndianVec<RunTimeEndian>) -> Self
        ensures { result
            ≡ record { encoding = encoding; texts = []; ranges = ranges; entries = [] } }
    {
        UnitEmitter {
            encoding,
            strings: StringTable::new(alloc),
            ranges,
            entries: Vec::new(alloc),
        }
    }

    // The offset of a text, which is added if it isn't there.
    #[tactic(auto, using(crate::proofs::EmittedTextLemmas::place_below))]
    fn text(&mut self, alloc: Global, text: &[u8]) -> Result<u64, Error>
        requires { IsText text.now }
        ensures ok { OnOk result (self.new ≡ with_name text.now self.old) }
        ensures offset { IfOk result (λ offset. offset ≡ text_offset text.now self.old) }
        ensures refusal { IfErr result (λ e. e ≡ Memory) }
    {
        let id = self.strings.add(alloc, text)?;
        Ok(self.strings.offset(id).0 as u64)
    }

    // Adds a list of ranges, and returns its offset.
    fn list(&mut self, alloc: Global, ranges: &[TableRange]) -> Result<u64, Error>
        requires size { is_address_size self.old.encoding.address_size ≡ true }
        requires can_write { AllWritable self.old.encoding.address_size
            (map lookup_range (map range_part ranges.now)) }
        ensures ok { OnOk result (self.new ≡ with_list (map range_part ranges.now) self.old) }
        ensures offset { IfOk result (λ offset. offset ≡ list_offset self.old) }
        ensures refusal { IfErr result (λ e. e ≡ Memory) }
    {
        let offset = lists_start(self.encoding) + self.ranges.len() as u64;
        let list = ranges_of(alloc, ranges)?;
        write_ranges(&mut self.ranges, self.encoding, list.as_slice())?;
        Ok(offset)
    }

    // Adds an entry.
    fn entry(&mut self, entry: Entry) -> Result<(), Error>
        ensures ok { OnOk result (self.new ≡ with_entry entry self.old) }
        ensures refusal { IfErr result (λ e. e ≡ Memory) }
    {
        self.entries.push(entry)?;
        Ok(())
    }

    // Ends the children, if there are some.
    fn close(&mut self, has_children: bool) -> Result<(), Error>
        ensures ok { OnOk result (self.new ≡ with_end_of_children has_children self.old) }
        ensures refusal { IfErr result (λ e. e ≡ Memory) }
    {
        if has_children {
            self.entry(Entry::EndOfChildren)?;
        }
        Ok(())
    }

    // The entries of functions that are inlined somewhere.
    fn abstract_functions(&mut self, alloc: Global, names: &StringTable) -> Result<(), Error>
        ensures ok { OnOk result (self.new ≡ with_abstract_functions names.now self.old) }
        ensures refusal { IfErr result (λ e. e ≡ Memory) }
    {
        for number in 0..names.count() {
            let name = self.text(alloc, names.get(StringId(number)))?;
            self.entry(Entry::AbstractFunction { name })?;
        }
        Ok(())
    }

    // The entry of a call of one of these functions, without the calls in it.
    fn call(
        &mut self,
        alloc: Global,
        version: u16,
        files: &[FileId],
        names: &mut StringTable,
        call: &TableCall,
        has_children: bool,
    ) -> Result<(), Error>
        requires size { is_address_size self.old.encoding.address_size ≡ true }
        requires can_emit { CanEmit self.old.encoding.address_size (call_part call.now).site.name
            (call_part call.now).site.ranges }
        requires among { IsAmong names.old (call_part call.now).site.name }
        requires few { length names.old < 2 ^ 31 }
        requires file { (call_part call.now).site.file < length files.now }
        ensures ok { OnOk result
            (self.new ≡ with_call (file_number version files.now) names.old has_children
            (call_part call.now).site self.old) }
        ensures same { OnOk result (names.new ≡ names.old) }
        ensures refusal { IfErr result (λ e. e ≡ Memory) }
    {
        let number = number_of(alloc, names, &call.name)?;
        let origin = abstract_offset(self.encoding, number);
        let ranges = self.list(alloc, &call.ranges)?;
        self.entry(Entry::Call {
            has_children,
            origin,
            ranges,
            file: number_in(version, files, call.file),
            line: call.line,
            column: call.column,
        })
    }

    // The entries of calls, each with those in it.
    #[tactic(auto, using(crate::proofs::EmittedCallLemmas::some_in), unfolding(crate::specs::UnitEmission::with_calls, crate::specs::UnitEmission::CanEmitCalls, crate::specs::InlinedNames::NamesAre))]
    fn calls(
        &mut self,
        alloc: Global,
        version: u16,
        files: &[FileId],
        names: &mut StringTable,
        calls: &[TableCall],
    ) -> Result<(), Error>
        requires size { is_address_size self.old.encoding.address_size ≡ true }
        requires can_emit { CanEmitCalls self.old.encoding.address_size (length files.now)
            (calls_part calls.now) }
        requires among { NamesAre (IsAmong names.old) (calls_part calls.now) }
        requires few { length names.old < 2 ^ 31 }
        ensures ok { OnOk result
            (self.new ≡ with_calls (file_number version files.now) names.old
            (calls_part calls.now) self.old) }
        ensures same { OnOk result (names.new ≡ names.old) }
        ensures refusal { IfErr result (λ e. e ≡ Memory) }
    {
        for call in calls {
            let has_children = !call.calls.is_empty();
            self.call(alloc, version, files, names, call, has_children)?;
            self.calls(alloc, version, files, names, &call.calls)?;
            self.close(has_children)?;
        }
        Ok(())
    }

    // The entry of a function, without its calls.
    #[tactic(auto, using(crate::proofs::EmittedCallLemmas::some_calls))]
    fn function(&mut self, alloc: Global, function: &TableFunction) -> Result<(), Error>
        requires size { is_address_size self.old.encoding.address_size ≡ true }
        requires can_emit { CanEmit self.old.encoding.address_size (function_part function.now).name
            (function_part function.now).ranges }
        ensures ok { OnOk result
            (self.new ≡ with_function_entry (function_part function.now) self.old) }
        ensures refusal { IfErr result (λ e. e ≡ Memory) }
    {
        let name = self.text(alloc, function.name.as_bytes())?;
        let ranges = self.list(alloc, &function.ranges)?;
        self.entry(Entry::Function {
            has_children: !function.calls.is_empty(),
            name,
            ranges,
        })
    }

    // The entries of functions, each with its calls.
    #[tactic(auto, using(crate::proofs::EmittedCallLemmas::some_calls))]
    fn functions(
        &mut self,
        alloc: Global,
        version: u16,
        files: &[FileId],
        names: &mut StringTable,
        functions: &[TableFunction],
    ) -> Result<(), Error>
        requires size { is_address_size self.old.encoding.address_size ≡ true }
        requires can_emit { CanEmitFunctions self.old.encoding.address_size
            (length files.now) (map function_part functions.now) }
        requires among { FunctionNamesAre (IsAmong names.old) (map function_part functions.now) }
        requires few { length names.old < 2 ^ 31 }
        ensures ok { OnOk result
            (self.new ≡ with_functions (file_number version files.now) names.old
            (map function_part functions.now) self.old) }
        ensures refusal { IfErr result (λ e. e ≡ Memory) }
    {
        for function in functions {
            let has_children = !function.calls.is_empty();
            self.function(alloc, function)?;
            self.calls(alloc, version, files, names, &function.calls)?;
            self.close(has_children)?;
        }
        Ok(())
    }

    // The entry of a unit whose line program is at an offset.
    fn root(&mut self, alloc: Global, unit: &TableUnit, line_program: u64) -> Result<(), Error>
        requires size { is_address_size self.old.encoding.address_size ≡ true }
        requires directory { IsText (unit_part unit.now).directory }
        requires can_emit { CanEmit self.old.encoding.address_size (unit_part unit.now).name
            (unit_part unit.now).ranges }
        ensures ok { OnOk result
            (self.new ≡ with_unit_entry line_program (unit_part unit.now) self.old) }
        ensures refusal { IfErr result (λ e. e ≡ Memory) }
    {
        let name = self.text(alloc, unit.name.as_bytes())?;
        let directory = self.text(alloc, unit.directory.as_bytes())?;
        let ranges = self.list(alloc, &unit.ranges)?;
        self.entry(Entry::CompileUnit {
            name,
            directory,
            line_program,
            ranges,
        })
    }

    /// Adds the entries of a unit, with its texts and range lists. Its line program is at an
    /// offset, where its files have these ids.
    pub fn unit(
        &mut self,
        alloc: Global,
        unit: &TableUnit,
        ids: &[FileId],
        line_program: u64,
    ) -> Result<(), Error>
        requires size { is_address_size self.old.encoding.address_size ≡ true }
        requires can_emit { CanEmitUnit self.old.encoding.address_size (unit_part unit.now) }
        requires ids { length ids.now ≡ length (unit_part unit.now).files }
        ensures ok { OnOk result
            (self.new ≡ with_unit (file_number self.old.encoding.version ids.now) line_program
            (unit_part unit.now) self.old) }
        ensures refusal { IfErr result (λ e. e ≡ Memory) }
    {
        let version = self.encoding.version;
        let mut names = names_of(alloc, &unit.functions)?;
        self.root(alloc, unit, line_program)?;
        self.abstract_functions(alloc, &names)?;
        self.functions(alloc, version, ids, &mut names, &unit.functions)?;
        self.entry(Entry::EndOfChildren)
    }

    /// The entries of the current unit, borrowed.
    pub fn entries(&self) -> &[Entry]
        ensures { result.now ≡ self.now.entries }
    {
        self.entries.as_slice()
    }

    /// Clears the entries of the current unit, and keeps their memory for the next ones. It takes
    /// no memory.
    pub fn clear_entries(&mut self)
        ensures { self.new ≡ without_entries self.old }
    {
        self.entries.clear();
    }

    /// Writes the texts of all units, as the string section has them. Refused only when out of
    /// memory.
    pub fn write_strings(&self, w: &mut EndianVec<RunTimeEndian>) -> Result<(), Error>
        ensures { Appends result w.old w.new (section_of self.now.texts) }
    {
        self.strings.write(w)
    }

    /// The range lists of all units; all else is dropped.
    pub fn into_ranges(self) -> EndianVec<RunTimeEndian>
        ensures { result ≡ self.ranges }
    {
        let UnitEmitter {
            encoding: _,
            strings: _,
            ranges,
            entries: _,
        } = self;
        ranges
    }
}

// Ranges as they are written.
fn ranges_of(alloc: Global, ranges: &[TableRange]) -> Result<Vec<Range>, Error>
    ensures ok { IfOk result (λ list. list.items ≡ map lookup_range (map range_part ranges.now)) }
    ensures refusal { IfErr result (λ e. e ≡ Memory) }
{
    let mut list = Vec::new(alloc);
    for range in ranges {
        list.push(Range {
            begin: range.begin,
            end: range.end,
        })?;
    }
    Ok(list)
}
