//! Paths joined as their bytes say.

ghost use Rattle.std.specs.Prelude.{◌≡◌, IfOk, option_map};
ghost use Rattle.std.specs.String.{string_bytes};
ghost use Rattle.addr2line_paths.specs.FilePaths.{is_rooted, separator, needs_no_separator, join, join_some, file_text, file_text_of_bytes};

use std::alloc::{AllocError, Global};

// Whether bytes begin as a text with a root does.
fn has_root(text: &[u8]) -> bool
    ensures { result ≡ is_rooted text.now }
{
    matches!(text, [b'/' | b'\\', ..] | [_, b':', b'/' | b'\\', ..])
}

/// Whether a text begins with a slash of either kind, or with a drive's letter, colon and slash.
pub fn is_rooted(text: &str) -> bool
    ensures { result ≡ is_rooted text.now }
{
    has_root(text.as_bytes())
}

// The slash that a path is joined by: that of its root, or else '/'.
fn separator(path: &[u8]) -> u8
    ensures { result ≡ separator path.now }
{
    match path {
        [b'\\', ..] | [_, b':', b'\\', ..] => b'\\',
        _ => b'/',
    }
}

// Whether a text can be appended to a path without a separator.
fn needs_no_separator(path: &[u8]) -> bool
    ensures { result ≡ needs_no_separator path.now }
{
    match path {
        [] => true,
        [.., last] => *last == separator(path),
    }
}

/// The text appended to the path, after a separator where the path needs one; a text with a root
/// replaces the path.
pub fn join(mut path: String, text: &str) -> Result<String, AllocError>
    ensures { IfOk result (λ joined. string_bytes joined ≡ join (string_bytes path) text.now) }
{
    if is_rooted(text) {
        path.clear();
    } else if !needs_no_separator(path.as_bytes()) {
        let separator = separator(path.as_bytes());
        path.push(char::from(separator))?;
    }
    path.push_str(text)?;
    Ok(path)
}

// The same, where there is a text.
fn join_some(path: String, text: Option<&str>) -> Result<String, AllocError>
    ensures { IfOk result (λ joined. string_bytes joined
        ≡ join_some (string_bytes path) (option_map (λ t. t.now) text.entry)) }
{
    match text {
        Some(text) => join(path, text),
        None => Ok(path),
    }
}

/// The text of a file: its unit's directory, its own directory and its name, joined. A directory
/// that isn't there is skipped.
pub fn file_text(
    alloc: Global,
    unit_directory: Option<&str>,
    directory: Option<&str>,
    name: &str,
) -> Result<String, AllocError>
    ensures { IfOk result (λ text. string_bytes text
        ≡ file_text (option_map (λ t. t.now) unit_directory.entry)
        (option_map (λ t. t.now) directory.entry) name.now) }
{
    let path = match unit_directory {
        Some(text) => String::from_str(alloc, text)?,
        None => String::new(alloc),
    };
    let path = join_some(path, directory)?;
    join(path, name)
}

/// The same of bytes: before they are joined, U+FFFD replaces what isn't UTF-8.
pub fn file_text_of_bytes(
    alloc: Global,
    unit_directory: Option<&[u8]>,
    directory: Option<&[u8]>,
    name: &[u8],
) -> Result<String, AllocError>
    ensures { IfOk result (λ text. string_bytes text
        ≡ file_text_of_bytes (option_map (λ t. t.now) unit_directory.entry)
        (option_map (λ t. t.now) directory.entry) name.now) }
{
    let path = match unit_directory {
        Some(bytes) => String::from_utf8_lossy(alloc, bytes)?,
        None => String::new(alloc),
    };
    let path = match directory {
        Some(bytes) => join(path, &String::from_utf8_lossy(alloc, bytes)?)?,
        None => path,
    };
    join(path, &String::from_utf8_lossy(alloc, name)?)
}
