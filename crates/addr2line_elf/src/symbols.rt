//! The symbols of an image, and the one of an address.

ghost use Rattle.std.specs.Prelude.{◌≡◌, ◌==◌, filter, option_map, OnOk, IfErr};
ghost use Rattle.std.specs.List.{find};
ghost use Rattle.gimli_core_readers.specs.Parsers.{value_of};
ghost use Rattle.gimli_core_readers.specs.Calls.{ReturnsAsOrNoMemory};
ghost use Rattle.gimli_core_readers.specs.Repetition.{times};
ghost use Rattle.addr2line_elf.specs.SymbolEntries.{symbol_entry};
ghost use Rattle.addr2line_elf.specs.ImageLoading.{LoadsAsOrNoMemory, LoadsOrNoMemory};
ghost use Rattle.addr2line_elf.specs.ElfTexts.{text_at};
ghost use Rattle.addr2line_elf.specs.ElfSymbols.{is_defined, as_name, symbol_of, symbol_table, section_or, entries_in, symbols_in, symbol_at};
ghost use Rattle.addr2line_elf.specs.SymbolStretches.{is_named};
ghost use Rattle.addr2line_elf.specs.declared.error.LoadError.TheVariants.{Memory};

use crate::class::Class;
use crate::constants::{SHN_UNDEF, SHT_DYNSYM, SHT_SYMTAB, STT_FUNC};
use crate::error::LoadError;
use crate::headers::SectionHeader;
use crate::names::NameTable;
use crate::reading::{in_file, input_of};
use crate::stretch::{SymbolStretch, entry_at};
use crate::sweep::stretches_of;
use crate::symbol_entries::SymbolEntry;
use crate::texts::text_at;
use gimli_core_readers::{EndianBytes, EndianSlice, Error, Reader, RunTimeEndian};
use std::alloc::Global;
use std::marker::Model;
use std::snapshot::Snapshot;
use std::str;

/// A symbol: its name, the address of its first byte, and its size in bytes.
#[derive(Debug, Drop)]
pub struct Symbol<'a> {
    name: &'a str,
    address: u64,
    size: u64,
}

impl<'a> Model for Symbol<'a> {
    ghost use Rattle.addr2line_elf.specs.ElfSymbols.{NamedSymbol};

    ghost Value = { NamedSymbol };

    ghost view = { λ s. record { name = s.name.now; address = s.address; size = s.size } };
}

impl<'a> Symbol<'a> {
    /// Its name, as the file has it.
    pub fn name(&self) -> &'a str
        ensures { result.now ≡ self.now.name }
    {
        self.name
    }

    /// The address of its first byte where the program is linked to run.
    pub fn address(&self) -> u64
        ensures { result ≡ self.now.address }
    {
        self.address
    }
}

/// The symbols of an image that are defined in one of its sections, have a name, and are data,
/// functions or without a type. Their names are in the file's bytes, which are shared.
pub struct Symbols {
    stretches: Vec<SymbolStretch>,
    // In the order of the table. It takes no bytes.
    entries: Snapshot<Vec<SymbolEntry>>,
    texts: EndianBytes<RunTimeEndian>,
}

impl Drop for Symbols {
    fn drop(self) {
        let Symbols {
            stretches: _,
            entries: _,
            texts: _,
        } = self;
    }
}

impl Model for Symbols {
    ghost use Rattle.std.specs.Prelude.{List};
    ghost use Rattle.std.specs.List.{filter_map};
    ghost use Rattle.addr2line_elf.specs.ElfSymbols.{NamedSymbol};
    ghost use Rattle.addr2line_elf.specs.ElfSymbols.{symbol_of};
    ghost use Rattle.addr2line_elf.specs.SymbolStretches.{IsDivided};

    ghost Value = { List NamedSymbol };

    ghost view = { λ s. filter_map (symbol_of s.texts.bytes) s.entries.value.items };

    ghost invariant = { λ s.
        IsDivided s.texts.bytes s.entries.value.items s.stretches.items };
}

impl Symbols {
    ghost use Rattle.std.specs.Prelude.{[]};

    // No symbols.
    pub(crate) fn none(alloc: Global, texts: EndianBytes<RunTimeEndian>) -> Symbols
        ensures { result ≡ [] }
    {
        let entries = Vec::new(alloc);
        Symbols {
            stretches: Vec::new(alloc),
            entries: Snapshot::of(&entries),
            texts,
        }
    }

    // The symbols of a table, with their names. The section of names is read once, however many
    // symbols share a name, and the entries are sorted by their addresses.
    pub(crate) fn read(
        alloc: Global,
        class: Class,
        table: &EndianBytes<RunTimeEndian>,
        texts: EndianBytes<RunTimeEndian>,
    ) -> Result<Symbols, LoadError>
        ensures { LoadsOrNoMemory result (symbols_in class table.now texts) }
    {
        let mut entries = read_entries(alloc, class, table)?;
        keep_named(alloc, &mut entries, texts.as_bytes())?;
        let appearance = Snapshot::of(&entries);
        let stretches = stretches_of(alloc, entries)?;
        Ok(Symbols {
            stretches,
            entries: appearance,
            texts,
        })
    }

    /// The symbol that holds an address: of several the one of the greatest address, and of these
    /// the first. It is a bisection, and then reads the name of the symbol. It takes no memory.
    pub fn find(&self, address: u64) -> Option<Symbol<'_>>
        ensures { result ≡ symbol_at address self.now }
    {
        let entry = entry_at(&self.stretches, address)?;
        symbol_of(self.texts.as_bytes(), &entry)
    }
}

// Removes the entries that have no symbol. The only refusal is out of memory.
fn keep_named(alloc: Global, entries: &mut Vec<SymbolEntry>, texts: &[u8]) -> Result<(), LoadError>
    ensures ok { OnOk result (entries.new.items
        ≡ filter (is_named texts.now) entries.old.items) }
    ensures refusal { IfErr result (λ e. e ≡ Memory) }
{
    let names = NameTable::read(alloc, texts)?;
    entries.retain(
        |entry: &SymbolEntry| -> bool
            ensures { result ≡ is_named names.entry entry.now }
        { is_named(&names, entry) },
    );
    Ok(())
}

// Whether an entry has a symbol.
fn is_named(names: &NameTable<'_>, entry: &SymbolEntry) -> bool
    ensures { result ≡ is_named names.now entry.now }
{
    is_defined(entry) && names.begins_at(entry.name)
}

// As many entries as a table has room for.
#[tactic(auto, using(crate::proofs::Loads::of_returned, crate::proofs::Loads::of_read))]
fn read_entries(
    alloc: Global,
    class: Class,
    table: &EndianBytes<RunTimeEndian>,
) -> Result<Vec<SymbolEntry>, LoadError>
    ensures { LoadsAsOrNoMemory (λ entries. entries.items) result (entries_in class table.now) }
{
    let count = table.as_bytes().len() / class.symbol_size();
    in_file(read_counted(alloc, table, class, count))
}

// A number of entries from the start of a table.
fn read_counted(
    alloc: Global,
    table: &EndianBytes<RunTimeEndian>,
    class: Class,
    count: usize,
) -> Result<Vec<SymbolEntry>, Error>
    ensures { ReturnsAsOrNoMemory (λ entries. entries.items) result
        (value_of (times count (symbol_entry class) table.now)) }
{
    read_next(alloc, &mut input_of(table), class, count)
}

// The next entries.
fn read_next(
    alloc: Global,
    input: &mut EndianSlice<'_, RunTimeEndian>,
    class: Class,
    count: usize,
) -> Result<Vec<SymbolEntry>, Error>
    ensures { ReturnsAsOrNoMemory (λ entries. (entries.items, input.new)) result
        (times count (symbol_entry class) input.old) }
{
    let mut entries = Vec::new(alloc);
    for _index in 0..count {
        entries.push(SymbolEntry::parse(input, class)?)?;
    }
    Ok(entries)
}

/// The section with the symbols: the first with all of them, or else with those of dynamic linking.
pub fn symbol_table(sections: &[SectionHeader]) -> Option<&SectionHeader>
    ensures { option_map (λ section. section.now) result ≡ symbol_table sections.now }
{
    match first_of_type(sections, SHT_SYMTAB) {
        Some(section) => Some(section),
        None => first_of_type(sections, SHT_DYNSYM),
    }
}

// The first section of a type.
fn first_of_type(sections: &[SectionHeader], section_type: u32) -> Option<&SectionHeader>
    ensures { option_map (λ section. section.now) result
        ≡ find (λ h. h.section_type == section_type) sections.now }
{
    sections
        .iter()
        .find(|section| section.section_type == section_type)
}

// The symbol of an entry, if it is defined and has a name.
fn symbol_of<'a>(texts: &'a [u8], entry: &SymbolEntry) -> Option<Symbol<'a>>
    ensures { result ≡ symbol_of texts.now entry.now }
{
    if !is_defined(entry) {
        return None;
    }
    let name = name_of(text_at(texts, entry.name)?)?;
    Some(Symbol {
        name,
        address: entry.value,
        size: entry.size,
    })
}

// Whether a section of the image defines the symbol, and it is a datum, a function or without a
// type.
fn is_defined(entry: &SymbolEntry) -> bool
    ensures { result ≡ is_defined entry.now }
{
    entry.section != SHN_UNDEF && entry.info % 16 <= STT_FUNC
}

// The text as a name: UTF-8, and not empty.
#[tactic(auto, using(crate::proofs::SymbolNames::name_yes, crate::proofs::SymbolNames::name_no))]
fn name_of(text: &[u8]) -> Option<&str>
    ensures { option_map (λ name. name.now) result ≡ as_name text.now }
{
    if text.is_empty() {
        return None;
    }
    match str::from_utf8(text) {
        Ok(name) => Some(name),
        Err(_) => None,
    }
}
