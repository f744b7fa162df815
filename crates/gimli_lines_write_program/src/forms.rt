//! Texts of one form.

ghost use Rattle.std.specs.Prelude.{◌≡◌, ◌==◌, map};
ghost use Rattle.gimli_lines_write_laws.specs.FileTables.{text_of, file_of, info_of};
ghost use Rattle.gimli_lines_write_laws.specs.HeaderContents.{first_source};
ghost use Rattle.gimli_lines_write_laws.specs.ExpressiblePrograms.{text_form, list_form, paths_of};
ghost use Rattle.gimli_lines_write_program.specs.FormTests.{needed_form, have_form, have_paths_of_form, source_has_form, have_sources_of_form};

use gimli_lines_write_laws::{
    DW_FORM_string, DwForm, FileInfo, FileKey, LineString, first_source, form_of,
};

// Whether a text has a form.
fn has_form(form: DwForm, text: &LineString) -> bool
    ensures { result ≡ (text_form (text_of text.now) == form.0) }
{
    form_of(text).0 == form.0
}

// Whether texts have a form.
fn have_form(form: DwForm, texts: &[LineString]) -> bool
    ensures { result ≡ have_form form.0 (map text_of texts.now) }
{
    texts.iter().all(|text| has_form(form, text))
}

// Whether the paths of files have a form.
fn have_paths_of_form(form: DwForm, files: &[FileKey]) -> bool
    ensures { result ≡ have_paths_of_form form.0 (map file_of files.now) }
{
    files.iter().all(|file| has_form(form, &file.path))
}

// Whether the text of a file has a form, where it has one.
fn source_has_form(form: DwForm, info: &FileInfo) -> bool
    ensures { result ≡ source_has_form form.0 (info_of info.now).source }
{
    match &info.source {
        Some(source) => has_form(form, source),
        None => true,
    }
}

// Whether the texts of files have a form.
fn have_sources_of_form(form: DwForm, infos: &[FileInfo]) -> bool
    ensures { result ≡ have_sources_of_form form.0 (map info_of infos.now) }
{
    infos.iter().all(|info| source_has_form(form, info))
}

// The form of the texts of a list: up to version 4 each is in the header, in version 5 they are as
// the first.
fn form_of_texts(version: u16, texts: &[LineString]) -> DwForm
    ensures { result.0 ≡ list_form version (map text_of texts.now) }
{
    match texts.first() {
        Some(text) if version > 4 => form_of(text),
        _ => DW_FORM_string,
    }
}

// The same of the paths of files.
fn form_of_paths(version: u16, files: &[FileKey]) -> DwForm
    ensures { result.0 ≡ list_form version (paths_of (map file_of files.now)) }
{
    match files.first() {
        Some(file) if version > 4 => form_of(&file.path),
        _ => DW_FORM_string,
    }
}

// The same of the texts of files.
fn form_of_sources(version: u16, infos: &[FileInfo]) -> DwForm
    ensures { result.0 ≡ needed_form version (first_source (map info_of infos.now)) }
{
    match first_source(infos) {
        Some(source) if version > 4 => form_of(source),
        _ => DW_FORM_string,
    }
}

/// Whether texts have one form.
pub fn have_one_form(version: u16, texts: &[LineString]) -> bool
    ensures { result ≡ have_form (list_form version (map text_of texts.now))
        (map text_of texts.now) }
{
    let form = form_of_texts(version, texts);
    have_form(form, texts)
}

/// Whether the paths of files have one form.
pub fn have_paths_of_one_form(version: u16, files: &[FileKey]) -> bool
    ensures { result ≡ have_paths_of_form (list_form version (paths_of (map file_of files.now)))
        (map file_of files.now) }
{
    let form = form_of_paths(version, files);
    have_paths_of_form(form, files)
}

/// Whether the texts of files have one form.
pub fn have_sources_of_one_form(version: u16, infos: &[FileInfo]) -> bool
    ensures { result ≡ have_sources_of_form
        (needed_form version (first_source (map info_of infos.now))) (map info_of infos.now) }
{
    let form = form_of_sources(version, infos);
    have_sources_of_form(form, infos)
}
