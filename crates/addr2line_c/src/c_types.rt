//! What calls write. A text is a pointer and a length in C, and a field is 0 or empty where it
//! isn't known.

ghost use Rattle.std.specs.Prelude.{◌≡◌, option_map};
ghost use Rattle.addr2line_context.specs.BorrowedLocations.{location_value};
ghost use Rattle.addr2line_context.specs.OwnedPlaces.{location_of, stretch_of};
ghost use Rattle.addr2line_c.specs.COutputs.{byte_of, frame_out, frame_written, has, location_out, location_out_if_any, location_written, no_location_out, or_empty, or_zero, range_out, range_written};
ghost use Rattle.addr2line_c.specs.Copies.{frame_of};

use crate::copies::OwnedFrame;
use addr2line_context::{DwLang, Location, OwnedLocation, OwnedStretch};

/// A text.
#[repr(C)]
#[derive(Drop)]
pub struct A2lText<'a> {
    pub text: &'a [u8],
}

/// A place in the source.
#[repr(C)]
#[derive(Drop)]
pub struct A2lLocation<'a> {
    pub file: &'a [u8],
    pub discriminator: u64,
    pub line: u32,
    pub column: u32,
    pub has_file: u8,
    pub has_line: u8,
    pub has_column: u8,
    pub has_statement: u8,
    pub statement: u8,
    pub has_discriminator: u8,
}

/// A function, or a call that is inlined.
#[repr(C)]
#[derive(Drop)]
pub struct A2lFrame<'a> {
    pub function: &'a [u8],
    pub location: A2lLocation<'a>,
    pub entry_offset: u64,
    pub language: u16,
    pub has_function: u8,
    pub has_location: u8,
    pub has_entry_offset: u8,
    pub has_language: u8,
}

/// A stretch of addresses of one place.
#[repr(C)]
#[derive(Drop)]
pub struct A2lRange<'a> {
    pub location: A2lLocation<'a>,
    pub address: u64,
    pub length: u64,
}

/// A symbol.
#[repr(C)]
#[derive(Drop)]
pub struct A2lSymbol<'a> {
    pub name: &'a [u8],
    pub address: u64,
}

/// The addresses of a section.
#[repr(C)]
#[derive(Drop)]
pub struct A2lSection {
    pub begin: u64,
    pub end: u64,
}

/// A split file that a unit waits for.
#[repr(C)]
#[derive(Drop)]
pub struct A2lLoad<'a> {
    pub directory: &'a [u8],
    pub name: &'a [u8],
    pub id: u64,
    pub has_directory: u8,
    pub has_name: u8,
}

// 1 for true, 0 for false.
pub(crate) fn as_byte(test: bool) -> u8
    ensures { result ≡ byte_of test }
{
    if test { 1 } else { 0 }
}

// Whether there is a value, as a byte.
pub(crate) fn has<T>(value: &Option<T>) -> u8
    ensures { result ≡ has value.now }
{
    match value {
        Some(_) => 1,
        None => 0,
    }
}

// The bytes of a text, or none.
pub(crate) fn bytes_or_none<'a>(text: Option<&'a str>) -> &'a [u8]
    ensures { result.now ≡ or_empty (option_map (λ t. t.now) text.entry) }
{
    match text {
        Some(text) => text.as_bytes(),
        None => &[],
    }
}

impl<'a> A2lLocation<'a> {
    // No place.
    pub(crate) fn none() -> Self
        ensures { location_written result ≡ no_location_out }
    {
        A2lLocation {
            file: &[],
            discriminator: 0,
            line: 0,
            column: 0,
            has_file: 0,
            has_line: 0,
            has_column: 0,
            has_statement: 0,
            statement: 0,
            has_discriminator: 0,
        }
    }

    // A place, of which the text is lent.
    pub(crate) fn of(place: Location<'a>) -> Self
        ensures { location_written result ≡ location_out (location_value place.entry) }
    {
        A2lLocation {
            file: bytes_or_none(place.file),
            discriminator: place.discriminator.unwrap_or(0),
            line: place.line.unwrap_or(0),
            column: place.column.unwrap_or(0),
            has_file: has(&place.file),
            has_line: has(&place.line),
            has_column: has(&place.column),
            has_statement: has(&place.statement),
            statement: as_byte(place.statement.unwrap_or(false)),
            has_discriminator: has(&place.discriminator),
        }
    }

    // A place that is kept, if there is one.
    fn of_owned(place: &'a Option<OwnedLocation>) -> Self
        ensures { location_written result
            ≡ location_out_if_any (option_map location_of place.now) }
    {
        match place {
            Some(place) => A2lLocation::of(place.lend()),
            None => A2lLocation::none(),
        }
    }
}

// The number of a language, or 0.
fn code_of_language(language: Option<DwLang>) -> u16
    ensures { result ≡ or_zero (option_map (λ l. l.0) language) }
{
    match language {
        Some(language) => language.0,
        None => 0,
    }
}

impl<'a> A2lFrame<'a> {
    // A frame that is kept.
    pub(crate) fn of(frame: &'a OwnedFrame) -> Self
        ensures { frame_written result ≡ frame_out (frame_of frame.now) }
    {
        A2lFrame {
            function: bytes_or_none(frame.name.as_deref()),
            location: A2lLocation::of_owned(&frame.location),
            entry_offset: frame.offset.unwrap_or(0),
            language: code_of_language(frame.language),
            has_function: has(&frame.name),
            has_location: has(&frame.location),
            has_entry_offset: has(&frame.offset),
            has_language: has(&frame.language),
        }
    }
}

impl<'a> A2lRange<'a> {
    // A stretch that is kept.
    pub(crate) fn of(stretch: &'a OwnedStretch) -> Self
        ensures { range_written result ≡ range_out (stretch_of stretch.now) }
    {
        A2lRange {
            location: A2lLocation::of(stretch.location.lend()),
            address: stretch.address,
            length: stretch.length,
        }
    }
}
