//! Headers.

ghost use Rattle.std.specs.Prelude.{◌≡◌, ◌<◌, ◌≤◌, ◌++◌, false, flat_map, length};
ghost use Rattle.gimli_lines_write_tables.specs.EntryBytes.{Continues};
ghost use Rattle.gimli_lines_write_tables.specs.FileTables.{text_of};
ghost use Rattle.gimli_lines_write_unit.specs.HeaderContents.{listed_directories, tables_with, details_of, writes_sources, AllKnown};
ghost use Rattle.gimli_lines_write_tables.specs.Spelling.{unsigned_string};
ghost use Rattle.gimli_lines_write_tables.specs.TheConstants.{DW_FORM_string};
ghost use Rattle.gimli_lines_write_spec.specs.EntryFields.{spelled_file, file_formats, spelled_formats};
ghost use Rattle.gimli_lines_write_spec.specs.HeaderSpelling.{path_form, source_form, spelled_file_to_4, spelled_files_to_4, spelled_files_of_5, spelled_directories, spelled_files};
ghost use Rattle.gimli_lines_write_unit.specs.HeaderBytes.{bytes_or_refusal, all_or_refusal, file_refusals, directories_refusals, files_refusals_to_4, files_refusals_of_5, files_refusals, header_bytes};

use crate::details::FileDetails;
use crate::files::FileForms;
use crate::pieces::{file_formats, write_formats, write_start};
use crate::tables::{first_forms, write_directories, write_files};
use gimli_lines_write_tables::{
    DW_FORM_string, Encoding, Error, FileTable, LineRules, LineString, LineStringTable,
    StringTable, Writer,
};
use std::alloc::Global;
use std::marker::Model;

/// The directories that a header lists: up to version 4 the first isn't among them.
pub fn listed_directories(version: u16, directories: &[LineString]) -> &[LineString]
    ensures { result.now ≡ listed_directories version directories.now }
{
    if version > 4 || directories.is_empty() {
        return directories;
    }
    &directories[1..]
}

/// The directories and files of a header, with the tables that their texts are in.
#[derive(Drop)]
pub struct HeaderTables<'a> {
    details: FileDetails,
    strings: &'a StringTable,
    line_strings: &'a LineStringTable,
    tables: &'a FileTable,
    // The text of a file that has none.
    empty: &'a LineString,
}

impl<'a> Model for HeaderTables<'a> {
    ghost use Rattle.std.specs.Prelude.{◌≡◌, length};
    ghost use Rattle.gimli_lines_write_tables.specs.FileTables.{text_of};
    ghost use Rattle.gimli_lines_write_unit.specs.HeaderContents.{VersionedTables, tables_with, AllKnown};

    ghost Value = { VersionedTables };

    ghost view = { λ h. record {
      version = h.tables.now.version;
      listed = tables_with h.strings.now h.line_strings.now h.tables.now h.details
          (text_of h.empty.now);
    } };

    ghost invariant = { λ h. AllKnown h.strings.now h.line_strings.now h.tables.now h.details
        (text_of h.empty.now)
        × (length h.tables.now.infos ≡ length h.tables.now.files) };
}

impl<'a> HeaderTables<'a> {
    /// The tables of a header. The last text is that of files that have none.
    pub fn new(
        details: FileDetails,
        strings: &'a StringTable,
        line_strings: &'a LineStringTable,
        tables: &'a FileTable,
        empty: &'a LineString,
    ) -> Self
        requires { AllKnown strings.now line_strings.now tables.now details (text_of empty.now) }
        ensures { result ≡ record {
          version = tables.now.version;
          listed = tables_with strings.now line_strings.now tables.now details (text_of empty.now);
        } }
    {
        // (shows the prover that each file has its information)
        let _directories = tables.directories();
        HeaderTables {
            details,
            strings,
            line_strings,
            tables,
            empty,
        }
    }

    // Writes the directories.
    fn write_directories<W: Writer>(&self, w: &mut W, encoding: Encoding) -> Result<(), Error>
        requires { self.now.version ≡ encoding.version }
        ensures { Continues result (W.contents w.old) (W.contents w.new)
            (bytes_or_refusal (directories_refusals encoding self.now.listed.directories)
            (spelled_directories encoding (W.contents w.old).is_big self.now.listed.directories)) }
    {
        let directories = listed_directories(encoding.version, self.tables.directories());
        write_directories(w, encoding, self.strings, self.line_strings, directories)
    }

    // Writes each file, with these details and in lists of these forms.
    fn write_entries<W: Writer>(
        &self,
        w: &mut W,
        encoding: Encoding,
        details: FileDetails,
        forms: FileForms,
    ) -> Result<(), Error>
        requires { details.has_source ≡ writes_sources self.now }
        ensures { Continues result (W.contents w.old) (W.contents w.new)
            (all_or_refusal
            (file_refusals encoding details.has_source forms.path.0 forms.source.0)
            (spelled_file (W.contents w.old).is_big encoding.format (details_of details))
            self.now.listed.files) }
    {
        let files = self.tables.files();
        let infos = self.tables.infos();
        write_files(
            w,
            encoding,
            details,
            forms,
            self.strings,
            self.line_strings,
            files,
            infos,
            self.empty,
        )
    }

    // Writes each file up to version 4: beside its path and its directory, when it was modified and
    // its size.
    fn write_entries_to_4<W: Writer>(&self, w: &mut W, encoding: Encoding) -> Result<(), Error>
        requires { self.now.version ≤ 4 }
        ensures { Continues result (W.contents w.old) (W.contents w.new)
            (all_or_refusal (file_refusals encoding false DW_FORM_string.0 DW_FORM_string.0)
            (spelled_file_to_4 (W.contents w.old).is_big encoding.format)
            self.now.listed.files) }
    {
        let details = FileDetails {
            has_timestamp: true,
            has_size: true,
            has_md5: false,
            has_source: false,
        };
        let forms = FileForms {
            path: DW_FORM_string,
            source: DW_FORM_string,
        };
        self.write_entries(w, encoding, details, forms)
    }

    // Writes files up to version 4, and the empty path that ends them.
    fn write_files_to_4<W: Writer>(&self, w: &mut W, encoding: Encoding) -> Result<(), Error>
        requires { self.now.version ≤ 4 }
        ensures { Continues result (W.contents w.old) (W.contents w.new)
            (bytes_or_refusal (files_refusals_to_4 encoding self.now.listed)
            (spelled_files_to_4 (W.contents w.old).is_big encoding.format self.now.listed)) }
    {
        self.write_entries_to_4(w, encoding)?;
        w.write_u8(0)
    }

    // Writes files in version 5, in lists of these forms: their formats, how many there are, and
    // the files.
    fn write_lists_of_5<W: Writer>(
        &self,
        alloc: Global,
        w: &mut W,
        encoding: Encoding,
        forms: FileForms,
    ) -> Result<(), Error>
        requires { 4 < self.now.version }
        ensures { let t = self.now.listed in
            Continues result (W.contents w.old) (W.contents w.new)
            (bytes_or_refusal (flat_map
            (file_refusals encoding t.details.has_source forms.path.0 forms.source.0) t.files)
            (spelled_formats (file_formats t.details forms.path.0 forms.source.0)
            ++ (unsigned_string (length t.files)
            ++ flat_map (spelled_file (W.contents w.old).is_big encoding.format t.details)
            t.files))) }
    {
        let formats = file_formats(alloc, self.details, forms.path, forms.source)?;
        write_formats(w, formats.as_slice())?;
        w.write_uleb128(self.tables.file_count() as u64)?;
        self.write_entries(w, encoding, self.details, forms)
    }

    // The forms of the paths and of the texts of files in version 5.
    fn forms(&self) -> FileForms
        requires { 4 < self.now.version }
        ensures path { result.path.0 ≡ path_form self.now.listed }
        ensures source { result.source.0 ≡ source_form self.now.listed }
    {
        let files = self.tables.files();
        let infos = self.tables.infos();
        first_forms(self.details.has_source, files, infos, self.empty)
    }

    // Writes files in version 5.
    fn write_files_of_5<W: Writer>(
        &self,
        alloc: Global,
        w: &mut W,
        encoding: Encoding,
    ) -> Result<(), Error>
        requires { 4 < self.now.version }
        ensures { Continues result (W.contents w.old) (W.contents w.new)
            (bytes_or_refusal (files_refusals_of_5 encoding self.now.listed)
            (spelled_files_of_5 (W.contents w.old).is_big encoding.format self.now.listed)) }
    {
        self.write_lists_of_5(alloc, w, encoding, self.forms())
    }

    // Writes the files.
    fn write_files<W: Writer>(
        &self,
        alloc: Global,
        w: &mut W,
        encoding: Encoding,
    ) -> Result<(), Error>
        requires { self.now.version ≡ encoding.version }
        ensures { Continues result (W.contents w.old) (W.contents w.new)
            (bytes_or_refusal (files_refusals encoding self.now.listed)
            (spelled_files encoding (W.contents w.old).is_big self.now.listed)) }
    {
        if encoding.version <= 4 {
            return self.write_files_to_4(w, encoding);
        }
        self.write_files_of_5(alloc, w, encoding)
    }

    /// Writes the fields of a header after its second length.
    #[tactic(auto, unfolding(crate::specs::HeaderBytes::header_bytes))]
    pub fn write_header<W: Writer>(
        &self,
        alloc: Global,
        w: &mut W,
        rules: LineRules,
    ) -> Result<(), Error>
        requires { self.now.version ≡ rules.encoding.version }
        ensures { Continues result (W.contents w.old) (W.contents w.new)
            (header_bytes (W.contents w.old).is_big rules self.now.listed) }
    {
        write_start(w, rules)?;
        self.write_directories(w, rules.encoding)?;
        self.write_files(alloc, w, rules.encoding)
    }
}
