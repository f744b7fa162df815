//! The tests of texts.

ghost use Rattle.std.specs.Prelude.{◌≡◌, ◌||◌, map};
ghost use Rattle.std.specs.List.{list_any};
ghost use Rattle.linemap_meaning.specs.Conditions.{is_bad_text};
ghost use Rattle.linemap_meaning.specs.TableViews.{file_part};

use linemap_meaning::table::TableFile;

/// Whether a text is empty or has a zero byte.
pub fn is_bad_text(text: &str) -> bool
    ensures { result ≡ is_bad_text text.now }
{
    let bytes = text.as_bytes();
    bytes.is_empty() || bytes.contains(&0)
}

/// Whether the directory or the name of a file is empty or has a zero byte.
pub fn any_bad_file(files: &[TableFile]) -> bool
    ensures { result ≡ list_any
        (λ f. is_bad_text f.directory || is_bad_text f.name) (map file_part files.now) }
{
    files.iter().any(|file| is_bad_text(&file.directory) || is_bad_text(&file.name))
}
