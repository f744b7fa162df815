//! Where names begin in a string table.

ghost use Rattle.std.specs.Prelude.{◌≡◌, ◌<◌, ◌≤◌, ◌+◌, ◌^◌, length, OnOk, IfOk, IfErr};
ghost use Rattle.std.specs.List.Sorted.{IsNonDecreasingBy};
ghost use Rattle.std.specs.List.{prefix_len};
ghost use Rattle.addr2line_elf.specs.declared.error.LoadError.TheVariants.{Memory};
ghost use Rattle.addr2line_elf.specs.NameParts.{begins_name, begins_text, end_of, ends_by, is_in_part, with_part, AreNamePartsTo, AreNameParts, IsLongestText, IsLastZero};

use crate::error::LoadError;
use std::alloc::Global;
use std::marker::Model;
use std::str;

// A part of a string table that is UTF-8 and ends with a zero byte.
#[derive(Clone, Copy, Debug, PartialEq, Eq)]
pub(crate) struct NamePart {
    pub(crate) begin: usize,
    pub(crate) end: usize,
}

// A string table, and the parts of it in which names begin.
#[derive(Drop)]
pub(crate) struct NameTable<'a> {
    texts: &'a [u8],
    parts: Vec<NamePart>,
}

impl<'a> Model for NameTable<'a> {
    ghost use Rattle.std.specs.Prelude.{List, ℕ};
    ghost use Rattle.addr2line_elf.specs.NameParts.{AreNameParts};

    ghost Value = { List ℕ };

    ghost view = { λ t. t.texts.now };

    ghost invariant = { λ t. AreNameParts t.texts.now t.parts.items };
}

impl<'a> NameTable<'a> {
    // Reads a string table once. Takes memory for a list of its parts: one, where all of it is
    // UTF-8.
    pub(crate) fn read(alloc: Global, texts: &'a [u8]) -> Result<Self, LoadError>
        ensures ok { IfOk result (λ table. table ≡ texts.now) }
        ensures refusal { IfErr result (λ e. e ≡ Memory) }
    {
        let parts = parts_of(alloc, texts)?;
        Ok(NameTable { texts, parts })
    }

    // Whether a name begins at an offset. It is a bisection of the parts, and reads one byte.
    pub(crate) fn begins_at(&self, offset: u32) -> bool
        ensures { result ≡ begins_name self.now offset }
    {
        let place = offset as usize;
        match self.texts.get(place) {
            Some(byte) => is_in_part(&self.parts, place) && begins_text(*byte),
            None => false,
        }
    }
}

// Whether an offset is in a part, by a bisection.
fn is_in_part(parts: &[NamePart], offset: usize) -> bool
    requires { IsNonDecreasingBy end_of parts.now }
    ensures { result ≡ is_in_part offset parts.now }
{
    match parts.get(count_ending_by(parts, offset)) {
        Some(part) => part.begin <= offset,
        None => false,
    }
}

// How many of the parts end at an offset or before it.
fn count_ending_by(parts: &[NamePart], offset: usize) -> usize
    requires { IsNonDecreasingBy end_of parts.now }
    ensures { result ≡ prefix_len (ends_by offset) parts.now }
{
    parts.partition_point(
        |part: &NamePart| -> bool
            ensures { result ≡ ends_by offset part.now }
        { part.end <= offset },
    )
}

// Whether a byte begins a character, and doesn't end a text.
fn begins_text(byte: u8) -> bool
    ensures { result ≡ begins_text byte }
{
    byte != 0 && (byte < 0x80 || byte >= 0xc0)
}

// The parts of a string table.
fn parts_of(alloc: Global, texts: &[u8]) -> Result<Vec<NamePart>, LoadError>
    ensures ok { IfOk result (λ parts. AreNameParts texts.now parts.items) }
    ensures refusal { IfErr result (λ e. e ≡ Memory) }
{
    let mut parts = Vec::new(alloc);
    let mut begin = 0;
    while begin < texts.len() {
        begin = add_part(&mut parts, texts, begin)?;
    }
    Ok(parts)
}

// Adds the part that begins at an offset, if one does. Gives where the next one can begin: after
// the bytes that are UTF-8 from the offset on, and the one that isn't.
fn add_part(parts: &mut Vec<NamePart>, texts: &[u8], begin: usize) -> Result<usize, LoadError>
    requires { begin < length texts.now }
    ensures more { IfOk result (λ next. begin < next) }
    ensures within { IfOk result (λ next. next ≤ length texts.now + 1) }
    ensures ok { IfOk result (λ next. AreNamePartsTo begin texts.now parts.old.items
        → AreNamePartsTo next texts.now parts.new.items) }
    ensures refusal { IfErr result (λ e. e ≡ Memory) }
{
    let rest = &texts[begin..];
    let len = text_len(rest);
    push_part(parts, begin, len_to_last_zero(&rest[..len]))?;
    Ok(begin + len + 1)
}

// Adds a part of a length, unless it has no bytes.
fn push_part(parts: &mut Vec<NamePart>, begin: usize, len: usize) -> Result<(), LoadError>
    requires { begin + len < 2 ^ 64 }
    ensures ok { OnOk result (parts.new.items ≡ with_part begin len parts.old.items) }
    ensures refusal { IfErr result (λ e. e ≡ Memory) }
{
    if len > 0 {
        let end = begin + len;
        parts.push(NamePart { begin, end })?;
    }
    Ok(())
}

// How many bytes from the first on are UTF-8.
fn text_len(bytes: &[u8]) -> usize
    ensures { IsLongestText bytes.now result }
{
    match str::from_utf8(bytes) {
        Ok(_) => bytes.len(),
        Err(fault) => fault.valid_up_to(),
    }
}

// How many bytes there are up to the last zero byte, with that; 0 where there is none.
fn len_to_last_zero(bytes: &[u8]) -> usize
    ensures { IsLastZero bytes.now result }
{
    let mut len = bytes.len();
    while len > 0 && bytes[len - 1] != 0 {
        len -= 1;
    }
    len
}
