//! Addresses as words write them.

ghost use Rattle.std.specs.Prelude.{◌≡◌};
ghost use Rattle.linemap_meaning.specs.AnswerTexts.{word_address, without_0x};

// The word without a leading `0x`, unless nothing follows it.
fn after_0x(word: &str) -> &str
    ensures { result.now ≡ without_0x word.now }
{
    match word.as_bytes() {
        [b'0', b'x', _, ..] => &word[2..],
        _ => word,
    }
}

/// The address that a word writes in hexadecimal; none where it can't be read as one of 64 bits.
pub fn read_address(word: &str) -> Option<u64>
    ensures { result ≡ word_address word.now }
{
    u64::from_str_radix(after_0x(word), 16).ok()
}
