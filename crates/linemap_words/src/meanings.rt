//! What the refusals mean that are printed as a letter and a number.
ghost use Rattle.std.specs.Prelude.{◌≡◌, ◌-◌, is_some, length};
ghost use Rattle.linemap_words.specs.RefusalCodes.{count_of, digit_of, is_refusal_code, is_within, number_in};

use crate::meaning_texts::{DEBUG_INFORMATION, EMISSION, LOADING, TABLES, WRITING};

/// What a refusal means that is printed by this code, what usually causes it, and what to do; none
/// where no refusal has the code. The text ends with a line feed, and is in English.
pub fn meaning_of(code: &str) -> Option<&'static str>
    ensures { is_some result ≡ is_refusal_code code.now }
{
    match code.as_bytes() {
        [letter, digits @ ..] => meaning_at(texts_of(*letter), number_in(digits)),
        [] => None,
    }
}

// The texts of the refusals with a letter.
fn texts_of(letter: u8) -> &'static [&'static str]
    ensures { length result.now ≡ count_of letter }
{
    match letter {
        b'E' => &DEBUG_INFORMATION,
        b'W' => &WRITING,
        b'B' => &TABLES,
        b'M' => &EMISSION,
        b'L' => &LOADING,
        _ => &[],
    }
}

// The text of a number, counted from 1.
fn meaning_at(texts: &'static [&'static str], number: Option<u8>) -> Option<&'static str>
    ensures { is_some result ≡ is_within (length texts.now) number }
{
    let place = number?.checked_sub(1)?;
    texts.get(usize::from(place)).copied()
}

// The number of one or two digits, without a leading zero.
fn number_in(digits: &[u8]) -> Option<u8>
    ensures { result ≡ number_in digits.now }
{
    match digits {
        [ones] => digit_of(*ones),
        [tens, ones] => match (digit_of(*tens)?, digit_of(*ones)?) {
            (0, _) => None,
            (tens, ones) => Some(10 * tens + ones),
        },
        _ => None,
    }
}

// The digit of a character.
fn digit_of(character: u8) -> Option<u8>
    ensures { result ≡ digit_of character }
{
    match character {
        b'0'..=b'9' => Some(character - b'0'),
        _ => None,
    }
}
