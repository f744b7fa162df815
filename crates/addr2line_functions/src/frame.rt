//! Frames, and the names of functions in them.

ghost use Rattle.std.specs.Prelude.{Ok, IsOkAnd, IsUtf8};
ghost use Rattle.std.specs.Cow.{IsBorrowedStr, cow_str_bytes};
ghost use Rattle.std.specs.Str.Lossy.{utf8_lossy};
ghost use Rattle.gimli_units_entries.specs.Calls.{ReturnsAsOrNoMemory};
ghost use Rattle.addr2line_demangle.specs.LegacyNames.{demangle_or_name};

use addr2line_demangle::demangle_auto;
use addr2line_ranges::Location;
use gimli_units_entries::{DwLang, Error, Reader, ReaderOffset, UnitOffset};
use std::alloc::Global;
use std::borrow::CowStr;
use std::marker::Model;

/// The name of a function, and the language of its unit, where that is known.
#[derive(Drop)]
pub struct FunctionName<R: Reader> {
    /// The name, as the debug information has it.
    pub name: R,
    /// The language of the unit (DWARF 5, 7.12).
    pub language: Option<DwLang>,
}

impl<R: Reader> Model for FunctionName<R> {
    ghost use Rattle.std.specs.Prelude.{option_map};
    ghost use Rattle.addr2line_ranges.specs.Frames.{FunctionName as Name};

    ghost Value = { Name };

    ghost view = { λ f. record {
      name = R.view f.name;
      language = option_map (λ l. l.0) f.language;
    } };
}

impl<R: Reader> FunctionName<R> {
    /// The name as the debug information has it, in which each sequence that isn't UTF-8 is U+FFFD.
    /// It takes memory for such a name alone: UTF-8 is lent. The only error is out of memory.
    pub fn raw_name(&self, alloc: Global) -> Result<CowStr<'_>, Error>
        ensures value { ReturnsAsOrNoMemory cow_str_bytes result
            (Ok (utf8_lossy self.now.name.bytes)) }
        ensures lent { IsUtf8 self.now.name.bytes → IsOkAnd result IsBorrowedStr }
    {
        self.name.to_string_lossy(alloc)
    }

    /// The text that the name means in the language of its unit, or the name as it is if it means
    /// no other. Without a language it is read as a name of Rust. The only error is out of memory.
    pub fn demangle(&self, alloc: Global) -> Result<CowStr<'_>, Error>
        ensures { ReturnsAsOrNoMemory cow_str_bytes result
            (Ok (demangle_or_name self.now.language (utf8_lossy self.now.name.bytes))) }
    {
        let name = self.raw_name(alloc)?;
        demangle_auto(alloc, name, self.language)
    }
}

/// A function, or a call that is inlined. Of an address in no function only the place is known.
#[derive(Drop)]
pub struct Frame<'ctx, R: Reader> {
    /// The offset of the entry of the function or the call in its unit.
    pub dw_die_offset: Option<UnitOffset<R::Offset>>,
    /// The name of the function, where it has one.
    pub function: Option<FunctionName<R>>,
    /// The place in the source: that of the address, or, for the frames further out, that of the
    /// call inside.
    pub location: Option<Location<'ctx>>,
}

impl<'ctx, R: Reader> Model for Frame<'ctx, R> {
    ghost use Rattle.std.specs.Prelude.{option_map};
    ghost use Rattle.addr2line_ranges.specs.BorrowedLocations.{location_value};
    ghost use Rattle.addr2line_ranges.specs.Frames.{Frame as FramePart};

    ghost Value = { FramePart };

    ghost view = { λ f. record {
      offset = option_map (λ o. R.Offset.count o.0) f.dw_die_offset;
      function = f.function;
      location = option_map location_value f.location;
    } };
}
