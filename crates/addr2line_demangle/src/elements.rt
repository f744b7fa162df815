//! The text of an element of a path.

ghost use Rattle.std.specs.Prelude.{◌≡◌, ◌++◌, option_map, OnOk, string_bytes};
ghost use Rattle.addr2line_demangle.specs.LegacyElements.{dots_as_colons, is_lower_hexadecimal, visible_character, character_by_number, sign_of, character_of, first_replacement, without_underscore, element_text};

use std::alloc::AllocError;

// Whether all bytes are '0' to '9' and 'a' to 'f'.
fn is_lower_hexadecimal(digits: &str) -> bool
    ensures { result ≡ is_lower_hexadecimal digits.now }
{
    digits
        .as_bytes()
        .iter()
        .all(|b| matches!(b, b'0'..=b'9' | b'a'..=b'f'))
}

// The character of a number, unless there is none or it is a control character.
fn visible_character(number: u32) -> Option<char>
    ensures { result ≡ visible_character number }
{
    match char::from_u32(number) {
        Some(character) if !character.is_control() => Some(character),
        _ => None,
    }
}

// The character whose number these hexadecimal digits are.
fn character_by_number(digits: &str) -> Option<char>
    ensures { result ≡ character_by_number digits.now }
{
    if !is_lower_hexadecimal(digits) {
        return None;
    }
    match u32::from_str_radix(digits, 16) {
        Ok(number) => visible_character(number),
        Err(_) => None,
    }
}

// The character of a sign's word.
fn sign(word: &str) -> Option<char>
    ensures { result ≡ sign_of word.now }
{
    match word {
        "SP" => Some('@'),
        "BP" => Some('*'),
        "RF" => Some('&'),
        "LT" => Some('<'),
        "GT" => Some('>'),
        "LP" => Some('('),
        "RP" => Some(')'),
        "C" => Some(','),
        _ => None,
    }
}

// The character that a word between dollar signs means.
fn character(word: &str) -> Option<char>
    ensures { result ≡ character_of word.now }
{
    match word.as_bytes() {
        [b'u', ..] => character_by_number(&word[1..]),
        _ => sign(word),
    }
}

// After a dollar sign: the character of the word up to the next one, and the text after that.
fn first_replacement(text: &str) -> Option<(char, &str)>
    ensures { option_map (λ r. record { character = r.0; rest = r.1.now }) result
        ≡ first_replacement text.now }
{
    let (word, rest) = text.split_once('$')?;
    match character(word) {
        Some(character) => Some((character, rest)),
        None => None,
    }
}

// The element without an underscore at its start, if a dollar sign follows it.
fn without_underscore(element: &str) -> &str
    ensures { result.now ≡ without_underscore element.now }
{
    match element.as_bytes() {
        [b'_', b'$', ..] => &element[1..],
        _ => element,
    }
}

// Appends a plain part, with two colons in place of each two dots.
fn push_plain(text: &mut String, plain: &str) -> Result<(), AllocError>
    ensures { OnOk result
        (string_bytes text.new ≡ string_bytes text.old ++ dots_as_colons plain.now) }
{
    let mut rest = plain;
    while let Some((before, after)) = rest.split_once("..") {
        text.push_str(before)?;
        text.push_str("::")?;
        rest = after;
    }
    text.push_str(rest)
}

// Appends the text of an element.
pub(crate) fn push_element(text: &mut String, element: &str) -> Result<(), AllocError>
    ensures { OnOk result
        (string_bytes text.new ≡ string_bytes text.old ++ element_text element.now) }
{
    let mut rest = without_underscore(element);
    while let Some((plain, tail)) = rest.split_once('$') {
        push_plain(text, plain)?;
        match first_replacement(tail) {
            Some((character, after)) => {
                text.push(character)?;
                rest = after;
            }
            None => {
                text.push('$')?;
                return text.push_str(tail);
            }
        }
    }
    push_plain(text, rest)
}
