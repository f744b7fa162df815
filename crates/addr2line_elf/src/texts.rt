//! Texts of a string table.

ghost use Rattle.std.specs.Prelude.{◌≡◌, ◌==◌, option_map};
ghost use Rattle.std.specs.List.{position};
ghost use Rattle.addr2line_elf.specs.ElfTexts.{text_before_zero, text_at, is_text};

// The bytes from an offset up to a zero byte, if there is one.
pub(crate) fn text_at(texts: &[u8], offset: u32) -> Option<&[u8]>
    ensures { option_map (λ text. text.now) result ≡ text_at texts.now offset }
{
    text_before_zero(texts.get(offset as usize..)?)
}

// Whether the text at an offset is this one. It looks at no more bytes than that has, and one.
pub(crate) fn is_text_at(texts: &[u8], offset: u32, text: &[u8]) -> bool
    ensures { result ≡ is_text (text_at texts.now offset) text.now }
{
    match texts.get(offset as usize..) {
        Some(rest) => begins_with_text(rest, text),
        None => false,
    }
}

// Whether the bytes before the first zero byte are this text.
fn begins_with_text(bytes: &[u8], text: &[u8]) -> bool
    ensures { result ≡ is_text (text_before_zero bytes.now) text.now }
{
    let len = bytes.len().min(text.len() + 1);
    match text_before_zero(&bytes[..len]) {
        Some(before) => before == text,
        None => false,
    }
}

// The bytes before the first zero byte.
fn text_before_zero(bytes: &[u8]) -> Option<&[u8]>
    ensures { option_map (λ text. text.now) result ≡ text_before_zero bytes.now }
{
    let len = index_of_zero(bytes)?;
    Some(&bytes[..len])
}

// The index of the first zero byte.
fn index_of_zero(bytes: &[u8]) -> Option<usize>
    ensures { result ≡ position (λ b. b == 0) bytes.now }
{
    bytes.iter().position(|byte| *byte == 0)
}
