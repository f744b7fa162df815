//! Names as linkers know them, and the texts that they mean.

ghost use Rattle.std.specs.Prelude.{◌≡◌, ◌++◌, map, Ok, OnOk, option_map, string_bytes};
ghost use Rattle.std.specs.Char.{is_ascii_graphic, is_ascii_hexdigit};
ghost use Rattle.std.specs.List.{list_all};
ghost use Rattle.std.specs.Cow.{cow_str_bytes};
ghost use Rattle.gimli_core_base.specs.Calls.{ReturnsAsOrNoMemory};
ghost use Rattle.addr2line_demangle.specs.LegacyNames.{is_mark, without_llvm, path_bytes, is_hash, without_hash, is_suffix, elements_text, path_text, rust_text, demangle, demangle_or_name};
ghost use Rattle.addr2line_demangle.specs.LegacyPathView.{path_view};

use crate::elements::push_element;
use crate::paths::{Path, read_path};
use gimli_core_base::error::Error;
use gimli_core_base::{DW_LANG_Rust, DwLang};
use std::alloc::{AllocError, Global};
use std::borrow::CowStr;

// Whether all bytes are among those of the compiler's marks.
fn is_mark(text: &str) -> bool
    ensures { result ≡ is_mark text.now }
{
    text.as_bytes()
        .iter()
        .all(|b| matches!(b, b'A'..=b'F' | b'0'..=b'9' | b'@'))
}

// The name up to the compiler's suffix `.llvm.`.
fn without_llvm(name: &str) -> &str
    ensures { result.now ≡ without_llvm name.now }
{
    match name.rsplit_once(".llvm.") {
        Some((before, mark)) => { if is_mark(mark) { before } else { name } }
        None => name,
    }
}

// The text after the prefix of a legacy name.
fn path_bytes(name: &str) -> Option<&str>
    ensures { option_map (λ p. p.now) result ≡ path_bytes name.now }
{
    if let Some(path) = name.strip_prefix("_ZN") {
        return Some(path);
    }
    if let Some(path) = name.strip_prefix("ZN") {
        return Some(path);
    }
    name.strip_prefix("__ZN")
}

fn is_graphic(text: &[u8]) -> bool
    ensures { result ≡ list_all is_ascii_graphic text.now }
{
    text.iter().all(|b| b.is_ascii_graphic())
}

// Whether a text is empty, or a dot and visible bytes.
fn is_suffix(suffix: &str) -> bool
    ensures { result ≡ is_suffix suffix.now }
{
    match suffix.as_bytes() {
        [] => true,
        [b'.', ..] => is_graphic(suffix.as_bytes()),
        _ => false,
    }
}

fn is_hexadecimal(digits: &[u8]) -> bool
    ensures { result ≡ list_all is_ascii_hexdigit digits.now }
{
    digits.iter().all(|b| b.is_ascii_hexdigit())
}

// Whether an element is the compiler's hash.
fn is_hash(element: &str) -> bool
    ensures { result ≡ is_hash element.now }
{
    match element.as_bytes() {
        [b'h', digits @ ..] => is_hexadecimal(digits),
        _ => false,
    }
}

// The elements without a hash at the end.
fn without_hash<'a, 'b>(elements: &'b [&'a str]) -> &'b [&'a str]
    ensures { map (λ e. e.now) result.now ≡ without_hash (map (λ e. e.now) elements.now) }
{
    match elements {
        [others @ .., last] => { if is_hash(last) { others } else { elements } }
        [] => elements,
    }
}

// Appends the elements' texts, with two colons between each two.
fn push_elements(text: &mut String, elements: &[&str]) -> Result<(), AllocError>
    ensures { OnOk result (string_bytes text.new ≡ string_bytes text.old
        ++ elements_text (map (λ e. e.now) elements.now)) }
{
    if let [first, others @ ..] = elements {
        push_element(text, first)?;
        for element in others {
            text.push_str("::")?;
            push_element(text, element)?;
        }
    }
    Ok(())
}

// The text of a path of one element or more.
fn path_text(alloc: Global, path: &Path) -> Result<Option<String>, Error>
    ensures { ReturnsAsOrNoMemory (option_map string_bytes) result
        (Ok (path_text (path_view path.now))) }
{
    if path.elements.is_empty() || !is_suffix(path.suffix) {
        return Ok(None);
    }
    let mut text = String::new(alloc);
    push_elements(&mut text, without_hash(&path.elements))?;
    text.push_str(path.suffix)?;
    Ok(Some(text))
}

// The text of a legacy Rust name.
fn rust_text(alloc: Global, name: &str) -> Result<Option<String>, Error>
    ensures { ReturnsAsOrNoMemory (option_map string_bytes) result (Ok (rust_text name.now)) }
{
    if !name.is_ascii() {
        return Ok(None);
    }
    let Some(path) = path_bytes(without_llvm(name)) else {
        return Ok(None);
    };
    match read_path(alloc, path)? {
        Some(path) => path_text(alloc, &path),
        None => Ok(None),
    }
}

/// The text of a name of a language, if it has another than the name itself. Names of Rust are read
/// in their legacy form; those of other languages (DWARF 5, 7.12) have none. The only error is out
/// of memory.
pub fn demangle(alloc: Global, name: &str, language: DwLang) -> Result<Option<String>, Error>
    ensures { ReturnsAsOrNoMemory (option_map string_bytes) result
        (Ok (demangle language.0 name.now)) }
{
    if language == DW_LANG_Rust {
        rust_text(alloc, name)
    } else {
        Ok(None)
    }
}

/// The text of a name, or the name itself if it has no other. Without a language it is read as a
/// name of Rust. The only error is out of memory.
pub fn demangle_auto<'a>(
    alloc: Global,
    name: CowStr<'a, Global>,
    language: Option<DwLang>,
) -> Result<CowStr<'a, Global>, Error>
    ensures { ReturnsAsOrNoMemory cow_str_bytes result (Ok
        (demangle_or_name (option_map (λ l. l.0) language) (cow_str_bytes name.entry))) }
{
    match demangle(alloc, name.as_str(), language.unwrap_or(DW_LANG_Rust))? {
        Some(text) => Ok(CowStr::Owned(text)),
        None => Ok(name),
    }
}
