//! The bytes of a file, of which some parts are in memory.

ghost use Rattle.std.specs.Prelude.{◌≡◌, ◌≢◌, ◌≤◌, ◌<◌, ◌+◌, ◌^◌, [], Bool, true, List, ℕ, Result, Err, IfErr, IfOk, IfSome, IsTrue, ◌-◌, nat_le, take, drop, length, option_map, replicate};
ghost use Rattle.std.specs.List.{find, list_any};
ghost use Rattle.addr2line_elf.specs.ImageLoading.{LoadsAsOrNoMemory, LoadsOrNoMemory};
ghost use Rattle.addr2line_elf.specs.LoadErrors.{IsReadRefusal};
ghost use Rattle.addr2line_elf.specs.LoadedParts.{IsWhole};
ghost use Rattle.addr2line_elf.specs.declared.error.LoadError.{LoadError};
ghost use Rattle.addr2line_elf.specs.declared.error.LoadError.TheVariants.{Memory};
ghost use Rattle.addr2line_elf.specs.declared.file_parts.FilePart.{FilePart};
ghost use Rattle.addr2line_elf.specs.FileParts.{covers, has, overlaps, range_in, AreApart, AreThere, IsThere, ReadsParts};

use crate::error::LoadError;
use bytes::Bytes;
use std::alloc::{AllocError, Global};
use std::marker::Model;

/// A part of a file: its bytes from an offset on.
#[derive(Debug, Drop)]
pub struct FilePart {
    pub offset: u64,
    pub bytes: Bytes,
}

/// A file of which some parts are in memory, one after the other as they were read. Contracts see
/// the parts, and the file's bytes: those of the parts, and zeros elsewhere.
#[derive(Debug, Drop)]
pub struct FileParts {
    len: u64,
    parts: Vec<FilePart>,
}

impl Model for FileParts {
    ghost use Rattle.addr2line_elf.specs.FileParts.{file_bytes, HasParts, PartialFile};

    ghost Value = { PartialFile };

    ghost view = { λ f. record {
      bytes = file_bytes f.len f.parts.items;
      parts = f.parts.items;
    } };

    ghost invariant = { λ f. HasParts f.len f.parts.items (file_bytes f.len f.parts.items) };
}

/// A file that is read by parts.
pub trait PartSource {
    // Whether the file has these bytes; none are known of a file of which contracts say nothing.
    ghost is_file: { Self → List ℕ → Type 0 };

    /// The bytes of a range of the file, in a buffer of their number. Refused are out of memory, as
    /// `Memory`, and bytes that can't be read, as `Io`, also where the file ends before the range.
    fn read_at(&mut self, offset: u64, size: u64) -> Result<Bytes, LoadError>
        ensures bytes { (file : List ℕ) → is_file self.old file → IfOk result (λ bytes.
            IsThere file (record { offset = offset; bytes = bytes })) }
        ensures same { (file : List ℕ) → is_file self.old file → is_file self.new file }
        ensures size { IfOk result (λ bytes. length bytes ≡ size) }
        ensures refusal { IfErr result IsReadRefusal };
}

/// A file that is in memory, as a source of its parts, which share its bytes.
#[derive(Debug, Drop)]
pub struct MemoryFile {
    pub bytes: Bytes,
}

impl PartSource for MemoryFile {
    ghost use Rattle.std.specs.Prelude.{◌≡◌};

    ghost is_file = { λ source file. source.bytes ≡ file };

    fn read_at(&mut self, offset: u64, size: u64) -> Result<Bytes, LoadError> {
        read_in_memory(&self.bytes, offset, size)
    }
}

// The bytes of a range of a file in memory, shared.
fn read_in_memory(bytes: &Bytes, offset: u64, size: u64) -> Result<Bytes, LoadError>
    ensures bytes { IfOk result (λ part.
        IsThere bytes.now (record { offset = offset; bytes = part })) }
    ensures size { IfOk result (λ part. length part ≡ size) }
    ensures refusal { IfErr result IsReadRefusal }
{
    match offset.checked_add(size) {
        Some(end) if end <= bytes.len() as u64 => Ok(share_range(bytes, offset, size)?),
        _ => Err(LoadError::Io),
    }
}

// The bytes of a range that is in some bytes, shared.
fn share_range(bytes: &Bytes, offset: u64, size: u64) -> Result<Bytes, AllocError>
    requires { offset + size ≤ length bytes.now }
    ensures bytes { IfOk result (λ part. part ≡ take size (drop offset bytes.now)) }
    ensures count { IfOk result (λ part. length part ≡ size) }
{
    let begin = offset as usize;
    let _len = bytes.len();
    bytes.slice(begin..begin + size as usize)
}

impl FilePart {
    // The bytes of a range, which the part has.
    fn slice(&self, offset: u64, size: u64) -> &[u8]
        requires begins { self.now.offset ≤ offset }
        requires ends { offset - self.now.offset + size ≤ length self.now.bytes }
        ensures bytes { result.now ≡ take size (drop (offset - self.now.offset) self.now.bytes) }
        ensures count { length result.now ≡ size }
    {
        let begin = (offset - self.offset) as usize;
        let bytes = self.bytes.as_slice();
        &bytes[begin..begin + size as usize]
    }

    // The same, shared.
    fn share(&self, offset: u64, size: u64) -> Result<Bytes, AllocError>
        requires begins { self.now.offset ≤ offset }
        requires ends { offset - self.now.offset + size ≤ length self.now.bytes }
        ensures bytes { IfOk result (λ bytes.
            bytes ≡ take size (drop (offset - self.now.offset) self.now.bytes)) }
        ensures count { IfOk result (λ bytes. length bytes ≡ size) }
    {
        share_range(&self.bytes, offset - self.offset, size)
    }

    // The part again, which shares its bytes.
    fn share_all(&self) -> Result<FilePart, AllocError>
        ensures { IfOk result (λ part. part ≡ self.now) }
    {
        Ok(FilePart {
            offset: self.offset,
            bytes: self.bytes.clone()?,
        })
    }
}

impl FileParts {
    ghost use Rattle.std.specs.Prelude.{◌≡◌};

    /// All bytes of a file, which it shares. Takes memory for a list of one part.
    #[tactic(auto, using(crate::proofs::FilePartLemmas::whole_file))]
    pub fn whole(alloc: Global, bytes: Bytes) -> Result<FileParts, AllocError>
        ensures bytes { IfOk result (λ file. file.bytes ≡ bytes) }
        ensures whole { IfOk result IsWhole }
    {
        let len = bytes.len() as u64;
        let mut parts = Vec::new(alloc);
        parts.push(FilePart { offset: 0, bytes })?;
        Ok(FileParts { len, parts })
    }

    /// A file of a length, of which nothing is read yet.
    #[tactic(auto, using(crate::proofs::FilePartLemmas::has_none))]
    pub fn unread(alloc: Global, len: u64) -> FileParts
        ensures bytes { result.bytes ≡ replicate len 0 }
        ensures parts { result.parts ≡ [] }
    {
        FileParts {
            len,
            parts: Vec::new(alloc),
        }
    }

    /// The number of the file's bytes.
    pub fn len(&self) -> u64
        ensures { result ≡ length self.now.bytes }
    {
        self.len
    }

    // The same parts again, which share their bytes. Takes memory for a list of them.
    pub(crate) fn share_parts(&self, alloc: Global) -> Result<FileParts, AllocError>
        ensures { IfOk result (λ file. file ≡ self.now) }
    {
        Ok(FileParts {
            len: self.len,
            parts: share_all(alloc, &self.parts)?,
        })
    }

    // Whether the file doesn't end before a range does.
    pub(crate) fn has_range(&self, offset: u64, size: u64) -> bool
        ensures value { result ≡ nat_le (offset + size) (length self.now.bytes) }
        ensures small { IsTrue result → offset + size < 2 ^ 64 }
    {
        let len = self.len();
        match offset.checked_add(size) {
            Some(end) => end <= len,
            None => false,
        }
    }

    // Whether the bytes of a range are in memory, or the file ends before the range does.
    pub(crate) fn covers(&self, offset: u64, size: u64) -> bool
        ensures value { result ≡ covers offset size self.now }
        ensures there { AreThere self.now.bytes self.now.parts }
        ensures apart { AreApart self.now.parts }
    {
        let _len = self.len;
        if !self.has_range(offset, size) || size == 0 {
            return true;
        }
        self.part_of(offset, size).is_some()
    }

    // Reads a range from a source, unless the file ends before it, or bytes of it are in memory.
    #[tactic(auto, using(crate::proofs::FilePartLemmas::reads_none))]
    pub(crate) fn read<S: PartSource>(
        &mut self,
        source: &mut S,
        offset: u64,
        size: u64,
    ) -> Result<(), LoadError>
        ensures reads { ReadsParts S.is_file source.old self.old source.new self.new }
        ensures refusal { IfErr result IsReadRefusal }
    {
        if size > 0 && self.has_range(offset, size) {
            self.read_inside(source, offset, size)
        } else {
            Ok(())
        }
    }

    // Reads a range that the file has, unless bytes of it are in memory.
    #[tactic(auto, using(crate::proofs::FilePartLemmas::reads_none))]
    fn read_inside<S: PartSource>(
        &mut self,
        source: &mut S,
        offset: u64,
        size: u64,
    ) -> Result<(), LoadError>
        requires inside { offset + size ≤ length self.old.bytes }
        requires small { offset + size < 2 ^ 64 }
        ensures reads { ReadsParts S.is_file source.old self.old source.new self.new }
        ensures refusal { IfErr result IsReadRefusal }
    {
        if any_overlaps(&self.parts, offset, size) {
            return Ok(());
        }
        let bytes = source.read_at(offset, size)?;
        self.parts.push(FilePart { offset, bytes })?;
        Ok(())
    }

    // The bytes of a range, lent. Takes no memory. Refused are a file that ends before the range,
    // as `Truncated`, and bytes that are not in memory, as `Memory`.
    pub(crate) fn slice(&self, offset: u64, size: u64) -> Result<&[u8], LoadError>
        ensures bytes { LoadsAsOrNoMemory (λ bytes. bytes.now) result
            (range_in offset size self.now.bytes) }
        ensures covered { covers offset size self.now ≡ true → result ≢ Err Memory }
        ensures within { IfOk result (λ bytes. offset + length bytes.now < 2 ^ 64) }
    {
        if !self.has_range(offset, size) {
            return Err(LoadError::Truncated);
        }
        if size == 0 {
            return Ok(&[]);
        }
        match self.part_of(offset, size) {
            Some(part) => Ok(part.slice(offset, size)),
            None => Err(LoadError::Memory),
        }
    }

    // The same, shared. Takes a little memory.
    pub(crate) fn share(&self, offset: u64, size: u64) -> Result<Bytes, LoadError>
        ensures bytes { LoadsOrNoMemory result (range_in offset size self.now.bytes) }
        ensures within { IfOk result (λ bytes. offset + length bytes < 2 ^ 64) }
    {
        if !self.has_range(offset, size) {
            return Err(LoadError::Truncated);
        }
        if size == 0 {
            return Ok(Bytes::new());
        }
        match self.part_of(offset, size) {
            Some(part) => Ok(part.share(offset, size)?),
            None => Err(LoadError::Memory),
        }
    }

    // The first part that has the bytes of a range.
    fn part_of(&self, offset: u64, size: u64) -> Option<&FilePart>
        requires { offset + size < 2 ^ 64 }
        ensures found { option_map (λ part. part.now) result
            ≡ find (has offset size) self.now.parts }
        ensures begins { IfSome result (λ part. part.now.offset ≤ offset) }
        ensures ends { IfSome result (λ part.
            offset - part.now.offset + size ≤ length part.now.bytes) }
        ensures bytes { IfSome result (λ part.
            take size (drop (offset - part.now.offset) part.now.bytes)
            ≡ take size (drop offset self.now.bytes)) }
    {
        match part_with(&self.parts, offset, size) {
            Some(part) => Some(part),
            None => None,
        }
    }
}

// The same parts again, which share their bytes.
fn share_all(alloc: Global, parts: &[FilePart]) -> Result<Vec<FilePart>, AllocError>
    ensures { IfOk result (λ all. all.items ≡ parts.now) }
{
    let mut all = Vec::new(alloc);
    for part in parts {
        all.push(part.share_all()?)?;
    }
    Ok(all)
}

// The first part that has the bytes of a range.
fn part_with(parts: &[FilePart], offset: u64, size: u64) -> Option<&FilePart>
    requires { offset + size < 2 ^ 64 }
    ensures { option_map (λ part. part.now) result ≡ find (has offset size) parts.now }
{
    parts.iter().find(|part| has(part, offset, size))
}

// Whether a part has the bytes of a range.
fn has(part: &FilePart, offset: u64, size: u64) -> bool
    requires { offset + size < 2 ^ 64 }
    ensures { result ≡ has offset size part.now }
{
    part.offset <= offset && offset + size - part.offset <= part.bytes.len() as u64
}

// Whether bytes of a range are in one of the parts.
fn any_overlaps(parts: &[FilePart], offset: u64, size: u64) -> bool
    requires { offset + size < 2 ^ 64 }
    ensures { result ≡ list_any (overlaps offset size) parts.now }
{
    parts.iter().any(|part| overlaps(part, offset, size))
}

// Whether bytes of a range are in a part.
fn overlaps(part: &FilePart, offset: u64, size: u64) -> bool
    requires { offset + size < 2 ^ 64 }
    ensures { result ≡ overlaps offset size part.now }
{
    part.offset < offset + size
        && (offset < part.offset || offset - part.offset < part.bytes.len() as u64)
}
