//! What the matches of a subcommand hold.
ghost use Rattle.std.specs.Prelude.{◌≡◌, IfOk, IfSome, None, map, option_map, string_bytes};
ghost use Rattle.clap.specs.Words.{all_of, first_of, found_of, rows_of};
ghost use Rattle.linemap_words.specs.WordsRequest.{HasNumber, LacksNumber, is_set, texts_of};

use clap::ArgMatches;
use std::alloc::{AllocError, Global};

/// Whether a flag is there.
pub fn is_set(matches: &ArgMatches<'_>, id: &str) -> bool
    ensures { result ≡ is_set id.now (rows_of (found_of matches.now)) }
{
    match matches.get_str(id) {
        Some(text) => text == "true",
        None => false,
    }
}

/// The number at an option, unless there is none of 16 bits.
pub fn number_at(matches: &ArgMatches<'_>, id: &str) -> Option<u16>
    ensures number { IfSome result (HasNumber id.now (rows_of (found_of matches.now))) }
    ensures none { result ≡ None → LacksNumber id.now (rows_of (found_of matches.now)) }
{
    matches.get_one::<u16>(id)
}

/// A copy of the text at an argument, if it has one.
pub fn text_at(
    alloc: Global,
    matches: &ArgMatches<'_>,
    id: &str,
) -> Result<Option<String>, AllocError>
    ensures { IfOk result (λ text.
        first_of id.now (rows_of (found_of matches.now)) ≡ option_map string_bytes text) }
{
    match matches.get_str(id) {
        Some(text) => Ok(Some(String::from_str(alloc, text)?)),
        None => Ok(None),
    }
}

/// Copies of the texts at an argument, if it has any.
pub fn texts_at(
    alloc: Global,
    matches: &ArgMatches<'_>,
    id: &str,
) -> Result<Option<Vec<String>>, AllocError>
    ensures { IfOk result (λ texts.
        all_of id.now (rows_of (found_of matches.now)) ≡ option_map texts_of texts) }
{
    match matches.get_strs(id) {
        Some(texts) => Ok(Some(copies_of(alloc, texts)?)),
        None => Ok(None),
    }
}

// Copies of the texts.
fn copies_of(alloc: Global, texts: &[&str]) -> Result<Vec<String>, AllocError>
    ensures { IfOk result
        (λ copies. map string_bytes copies.items ≡ map (λ text. text.now) texts.now) }
{
    let mut copies = Vec::new(alloc);
    for text in texts {
        copies.push(String::from_str(alloc, text)?)?;
    }
    Ok(copies)
}
