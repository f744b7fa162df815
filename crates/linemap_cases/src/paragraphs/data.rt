//! Bytes and numbers as they are written.

use crate::mistake::Mistake;
use std::alloc::Global;

/// The bytes of some words: digits in hexadecimal, or a text in quotes, which a zero byte follows.
pub fn bytes_of(alloc: Global, words: &str) -> Result<Vec<u8>, Mistake> {
    let mut bytes = Vec::new(alloc);
    for word in words.split_whitespace() {
        push_word(alloc, &mut bytes, word)?;
    }
    Ok(bytes)
}

fn push_word(alloc: Global, bytes: &mut Vec<u8>, word: &str) -> Result<(), Mistake> {
    match text_in(word) {
        Some(text) => {
            bytes.extend_from_slice(text.as_bytes())?;
            bytes.push(0)?;
        }
        None => bytes.extend_from_slice(&hex::decode(alloc, word)?)?,
    }
    Ok(())
}

// What is between the quotes of a word.
fn text_in(word: &str) -> Option<&str> {
    word.strip_prefix("'")?.strip_suffix("'")
}

/// A number in hexadecimal after `0x`, or else in decimal.
pub fn number_of(word: &str) -> Result<u64, Mistake> {
    let number = match word.strip_prefix("0x") {
        Some(digits) => u64::from_str_radix(digits, 16),
        None => word.parse(),
    };
    number.map_err(|_| Mistake::Word)
}
