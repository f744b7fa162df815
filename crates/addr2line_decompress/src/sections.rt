//! The sections of debugging information that are decompressed.

ghost use Rattle.std.specs.Prelude.{◌≡◌, ◌||◌, nat_eq, true, IfOk};
ghost use Rattle.std.specs.List.{starts_with, list_any};
ghost use Rattle.std.specs.Cmp.Lexicographic.{pointwise};
ghost use Rattle.gimli_core_readers.specs.SectionNames.{name_of, dwo_name_of};
ghost use Rattle.addr2line_elf.specs.ElfTexts.{is_text};
ghost use Rattle.addr2line_decompress.specs.DebugSectionNames.{is_debug_name, is_lookup_name, is_among, is_old_name, new_name, LookupsReadThem};

use addr2line_elf::debug::READ;
use gimli_core_readers::SectionId;
use std::alloc::{AllocError, Global};

/// Which sections of debugging information are decompressed.
#[derive(Clone, Copy, Debug, PartialEq, Eq)]
pub enum DebugSections {
    /// All whose names begin with `.debug_` or `.zdebug_`.
    All,
    /// Those that lookups of addresses read. In GNU's old form, with a name `.zdebug_..`, a section
    /// is among them if the one of the name without the `z` is.
    Lookups,
}

/// The sections of a split file that lookups read.
pub const READ_SPLIT: [SectionId; 6] = [
    SectionId::DebugAbbrev,
    SectionId::DebugInfo,
    SectionId::DebugLine,
    SectionId::DebugRngLists,
    SectionId::DebugStr,
    SectionId::DebugStrOffsets,
];

impl DebugSections {
    // Whether the section of a name is among them.
    pub(crate) fn contains(self, name: &[u8]) -> bool
        ensures { result ≡ is_among self name.now }
    {
        match self {
            DebugSections::All => is_debug_name(name),
            DebugSections::Lookups => is_lookup_name(name),
        }
    }
}

fn is_debug_name(name: &[u8]) -> bool
    ensures { result ≡ is_debug_name name.now }
{
    name.starts_with(b".debug_") || name.starts_with(b".zdebug_")
}

fn is_lookup_name(name: &[u8]) -> bool
    ensures { result ≡ is_lookup_name name.now }
{
    is_read_name(name) || is_split_name(name)
}

fn is_read_name(name: &[u8]) -> bool
    ensures { result ≡ list_any (λ id. pointwise nat_eq (name_of id) name.now) READ }
{
    READ.iter().any(|id| id.name().as_bytes() == name)
}

fn is_split_name(name: &[u8]) -> bool
    ensures { result ≡ list_any (λ id. is_text (dwo_name_of id) name.now) READ_SPLIT }
{
    READ_SPLIT.iter().any(|id| is_dwo_name(*id, name))
}

fn is_dwo_name(id: SectionId, name: &[u8]) -> bool
    ensures { result ≡ is_text (dwo_name_of id) name.now }
{
    match id.dwo_name() {
        Some(dwo_name) => dwo_name.as_bytes() == name,
        None => false,
    }
}

// Whether a name is that of a section in GNU's old form.
pub(crate) fn is_old_name(name: &[u8]) -> bool
    ensures { result ≡ is_old_name name.now }
{
    name.starts_with(b".zdebug_")
}

// How many bytes `.zdebug_` has.
const OLD_PREFIX_LEN: usize = 8;

// The same name without the `z`.
pub(crate) fn new_name(alloc: Global, name: &[u8]) -> Result<Vec<u8>, AllocError>
    requires { is_old_name name.now ≡ true }
    ensures { IfOk result (λ new. new.items ≡ new_name name.now) }
{
    let mut new = Vec::new(alloc);
    new.extend_from_slice(b".debug_")?;
    new.extend_from_slice(&name[OLD_PREFIX_LEN..])?;
    Ok(new)
}

/// The sections for lookups are those that lookups read. It does nothing; its contract is the law.
pub fn lookups_read_them()
    ensures { LookupsReadThem }
{}
