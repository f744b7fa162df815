//! Bytes searched, and bytes as text.

ghost use Rattle.std.specs.Prelude.{◌≡◌, ◌==◌};
ghost use Rattle.std.specs.List.{position};
ghost use Rattle.std.specs.Str.{IsUtf8};
ghost use Rattle.std.specs.Str.Lossy.{utf8_lossy};
ghost use Rattle.std.specs.Cow.{cow_str_bytes};
ghost use Rattle.gimli_core_base.specs.Calls.{ReturnsAs, ReturnsAsOrNoMemory};
ghost use Rattle.gimli_core_readers.specs.Readers.{LendsText, utf8_of};

use gimli_core_base::error::Error;
use std::alloc::Global;
use std::borrow::CowStr;
use std::str;

// The bytes as a text, where they are UTF-8.
#[tactic(auto, using(crate::proofs::Utf8Texts::utf8_yes, crate::proofs::Utf8Texts::utf8_no))]
pub fn text_of(bytes: &[u8]) -> Result<&str, Error>
    ensures { ReturnsAs (λ s. s.now) result (utf8_of bytes.now) }
{
    match str::from_utf8(bytes) {
        Ok(text) => Ok(text),
        Err(_) => Err(Error::BadUtf8),
    }
}

// The bytes as a text, lent where they are UTF-8.
#[tactic(auto, using(crate::proofs::Utf8Texts::lossy_same))]
pub fn lossy_text_of(alloc: Global, bytes: &[u8]) -> Result<CowStr<'_>, Error>
    ensures value { ReturnsAsOrNoMemory cow_str_bytes result (Ok (utf8_lossy bytes.now)) }
    ensures lent { IsUtf8 bytes.now → LendsText bytes.now result }
{
    match str::from_utf8(bytes) {
        Ok(text) => Ok(CowStr::Borrowed(text)),
        Err(_) => Ok(CowStr::Owned(String::from_utf8_lossy(alloc, bytes)?)),
    }
}

// The place of the first byte that equals this one.
pub fn position_of(bytes: &[u8], byte: u8) -> Option<usize>
    ensures { result ≡ position (λ x. x == byte) bytes.now }
{
    bytes.iter().position(|x| *x == byte)
}
