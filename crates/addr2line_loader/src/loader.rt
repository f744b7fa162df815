//! A loader, and what it finds without split files.

ghost use Rattle.std.specs.Prelude.{◌≡◌, ◌≢◌, Ok, Err, IfErr, IfOk, option_map};
ghost use Rattle.addr2line_context.specs.BorrowedLocations.{location_value};
ghost use Rattle.addr2line_context.specs.Calls.{ReturnsAs, ReturnsAsOrNoMemory};
ghost use Rattle.addr2line_context.specs.ContextCosts.{AsksForPlace, GoesBetween};
ghost use Rattle.addr2line_context.specs.Contexts.{location, stretches};
ghost use Rattle.addr2line_context.specs.Error.TheVariants.{Memory};
ghost use Rattle.addr2line_context.specs.KeptUnits.{KeepsAsked};
ghost use Rattle.addr2line_context.specs.ResolvedUnits.{RunForRangesAlone};
ghost use Rattle.addr2line_split.specs.CachedFiles.{SharesTables};
ghost use Rattle.addr2line_split.specs.ElfImages.{section_range};
ghost use Rattle.addr2line_split.specs.ElfSymbols.{symbol_at};
ghost use Rattle.addr2line_split.specs.FileParts.{bytes_if_any};
ghost use Rattle.addr2line_split.specs.ImageLoading.{LoadsAsOrNoMemory};
ghost use Rattle.addr2line_split.specs.LoadError.TheVariants as load;
ghost use Rattle.addr2line_loader.specs.FileRanges.{left_in};
ghost use Rattle.addr2line_loader.specs.LoadedFiles.{loaded_file, range_of, symbol_name};
ghost use Rattle.addr2line_loader.specs.ResolvedFiles.{AfterPlace, answered_context};

use crate::location_range::LoaderRangeIter;
use crate::parts::{Parts, SharedContext, parts_of};
use addr2line_context::{Context, Dwarf, Error, Location, Range, RangeWalk};
use addr2line_split::{Elf, FileParts, ImageReader, LoadError, Symbol, Symbols};
use bytes::Bytes;
use std::alloc::Global;
use std::marker::Model;
use std::rc::Rc;

/// An ELF file whose debugging information answers lookups: its sections, its symbols, and a
/// context over its sections. Lookups go by the addresses that the file is linked to run at.
pub struct Loader {
    pub(crate) elf: Elf,
    pub(crate) symbols: Symbols,
    pub(crate) sections: Rc<Dwarf<ImageReader>>,
    pub(crate) context: Context<ImageReader>,
}

impl Drop for Loader {
    fn drop(self) {
        let Loader {
            elf: _,
            symbols: _,
            sections: _,
            context: _,
        } = self;
    }
}

impl Model for Loader {
    ghost use Rattle.addr2line_split.specs.CachedFiles.{SharesTables};
    ghost use Rattle.addr2line_loader.specs.ResolvedFiles.{ResolvedFile};

    ghost Value = { ResolvedFile };

    ghost view = { λ l. record {
      file = record {
        image = l.elf;
        symbols = l.symbols;
        sections = l.sections.value.file;
        context = l.context.value.plain;
        answers = l.context.value.answers;
      };
      units = l.context.units;
    } };

    ghost invariant = { λ l. SharesTables l.sections.value };
}

impl Loader {
    ghost use Rattle.std.specs.Borrow.{RestsIfErr, sem};
    ghost use Rattle.std.specs.Io.BufRead.{Rests};
    ghost use Rattle.addr2line_loader.specs.contracts.loader.Loader.{the_row};

    /// Loads the file of some bytes, and its supplement, if there is one. It shares the bytes, and
    /// takes memory for its sections, its symbols, its units and the abbreviation tables that
    /// these share, each of which is read once; the others are only checked. The lines of a unit
    /// are read here only where its ranges are those of its lines.
    pub fn from_bytes(
        alloc: Global,
        image: Bytes,
        supplement: Option<Bytes>,
    ) -> Result<Loader, LoadError>
        ensures file { LoadsAsOrNoMemory (λ l. l.file) result (loaded_file image supplement) }
        ensures lines { IfOk result (λ l. RunForRangesAlone l.units) }
    {
        let image = FileParts::whole(alloc, image)?;
        let supplement = whole_if_any(alloc, supplement)?;
        Loader::from_parts(alloc, image, supplement)
    }

    /// The same of files of which the parts that a loader needs are in memory.
    pub fn from_parts(
        alloc: Global,
        image: FileParts,
        supplement: Option<FileParts>,
    ) -> Result<Loader, LoadError>
        ensures file { LoadsAsOrNoMemory (λ l. l.file) result
            (loaded_file image.bytes (bytes_if_any supplement)) }
        ensures lines { IfOk result (λ l. RunForRangesAlone l.units) }
    {
        let elf = Elf::parse_parts(alloc, image)?;
        let Parts { symbols, debug } = parts_of(alloc, &elf, supplement)?;
        let SharedContext { sections, context } = debug;
        Ok(Loader {
            elf,
            symbols,
            sections,
            context,
        })
    }

    /// The file's sections of debugging information, which the context shares. Their cache has the
    /// abbreviation tables that at least two of the file's units share, each once.
    pub fn sections(&self) -> &Rc<Dwarf<ImageReader>>
        ensures file { result.now.value.file ≡ self.now.file.sections }
        ensures tables { SharesTables result.now.value }
    {
        &self.sections
    }

    /// The address that addresses count from: 0, as in all ELF files.
    pub fn relative_address_base(&self) -> u64
        ensures { result ≡ 0 }
    {
        0
    }

    /// The place of an address, as `Context::find_location` finds it. The lines of the units that
    /// it asks are read, unless they are kept, and kept, those of no other unit; else it takes no
    /// memory, so that the same address again never is out of memory.
    pub fn find_location(&mut self, probe: u64) -> Result<Option<Location<'_>>, Error>
        ensures place { ReturnsAsOrNoMemory (option_map location_value) result
            (location self.old.file.context.context probe) }
        ensures free { KeepsAsked (AsksForPlace (answered_context self.old.file) probe)
            self.old.units → result ≢ Err Memory }
        ensures* after { sem 𝓛 (Rests the_row self.entry (AfterPlace probe result self.old)) }
    {
        self.context.find_location(probe)
    }

    /// The stretches of addresses between two ends, with their places, as
    /// `Context::find_location_range` finds them. Here nothing is read and no memory is taken, so
    /// that it is never refused. Once the iterator is let go, the loader is what its calls left.
    pub fn find_location_range(
        &mut self,
        probe_low: u64,
        probe_high: u64,
    ) -> Result<LoaderRangeIter<'_>, Error>
        ensures stretches { ReturnsAs (λ i. left_in i.loader.now i.walk) result
            (Ok (stretches self.old.file.context.context probe_low probe_high)) }
        ensures loader { IfOk result (λ i. i.loader.now ≡ self.old) }
        ensures between { IfOk result (λ i.
            GoesBetween (answered_context self.old.file) probe_low probe_high i.walk) }
        ensures same_reference { IfOk result (λ i. i.loader.ghost_name ≡ self.entry.ghost_name) }
        ensures* after { sem 𝓛 (RestsIfErr the_row self.entry (λ i. i.loader.ghost_name) result
            (λ left. left ≡ self.old)) }
    {
        let walk = RangeWalk::new(probe_low, probe_high);
        Ok(LoaderRangeIter { loader: self, walk })
    }

    /// The name of the symbol that holds an address. It takes no memory.
    pub fn find_symbol(&self, probe: u64) -> Option<&str>
        ensures { option_map (λ name. name.now) result
            ≡ option_map symbol_name (symbol_at probe self.now.file.symbols) }
    {
        let symbol = self.find_symbol_info(probe)?;
        Some(symbol.name())
    }

    /// The symbol that holds an address: of several the one of the greatest address, and of these
    /// the first in the file. It is a bisection, and takes no memory.
    pub fn find_symbol_info(&self, probe: u64) -> Option<Symbol<'_>>
        ensures { result ≡ symbol_at probe self.now.file.symbols }
    {
        self.symbols.find(probe)
    }

    /// The addresses of the first section of a name, if its end is an address of 64 bits. It looks
    /// at each section before.
    pub fn get_section_range(&self, section_name: &[u8]) -> Option<Range>
        ensures { result
            ≡ option_map range_of (section_range section_name.now self.now.file.image) }
    {
        let range = self.elf.get_section_range(section_name)?;
        Some(Range {
            begin: range.start,
            end: range.end,
        })
    }
}

// All bytes of a file, if there is one.
fn whole_if_any(alloc: Global, bytes: Option<Bytes>) -> Result<Option<FileParts>, LoadError>
    ensures bytes { IfOk result (λ file. bytes_if_any file ≡ bytes) }
    ensures memory { IfErr result (λ e. e ≡ load.Memory) }
{
    match bytes {
        Some(bytes) => Ok(Some(FileParts::whole(alloc, bytes)?)),
        None => Ok(None),
    }
}
