//! The lines that answer words.

ghost use Rattle.std.specs.Prelude.{◌≡◌, ◌++◌, Some, IfOk, OnOk, option_map};
ghost use Rattle.std.specs.String.{string_bytes};
ghost use Rattle.addr2line_context.specs.BorrowedLocations.{location_value};
ghost use Rattle.addr2line_context.specs.Contexts.{location};
ghost use Rattle.linemap_text.specs.WordTexts.{NeverRefuses, text_of_place, text_of_answer, word_text};

use addr2line_context::{Context, Error, Location, Reader};
use linemap_emit::{push_discriminator, push_line, read_address};
use std::alloc::{AllocError, Global};

// Appends a place as file and line, with its discriminator.
fn push_place(text: &mut String, place: Location<'_>) -> Result<(), AllocError>
    ensures { OnOk result (string_bytes text.new
        ≡ string_bytes text.old ++ text_of_place (Some (location_value place.entry))) }
{
    push_line(text, place.file.unwrap_or("??"), place.line)?;
    push_discriminator(text, place.discriminator)
}

/// A place as file and line, without a line end; `??` is a file that isn't known, and `?` a line
/// that isn't. A discriminator above 0 follows in parentheses.
#[tactic(auto, using(std::proofs::lemmas::Fmt::decimal_digit))]
pub fn place_line(alloc: Global, place: Option<Location<'_>>) -> Result<String, AllocError>
    ensures { IfOk result
        (λ line. string_bytes line ≡ text_of_place (option_map location_value place.entry)) }
{
    match place {
        None => String::from_str(alloc, "??:0"),
        Some(place) => {
            let mut text = String::new(alloc);
            push_place(&mut text, place)?;
            Ok(text)
        }
    }
}

// The line for an address, in a context that refuses none.
fn address_line<R: Reader>(
    alloc: Global,
    context: &mut Context<R>,
    address: u64,
) -> Result<String, AllocError>
    requires { NeverRefuses context.old.value.plain.context }
    ensures line { IfOk result (λ line.
        string_bytes line ≡ text_of_answer (location context.old.value.plain.context address)) }
    ensures value { context.new.value ≡ context.old.value }
{
    let place = match context.find_location(address) {
        Ok(place) => place,
        Err(Error::Memory) => return Err(AllocError),
        Err(_) => unreachable!(),
    };
    place_line(alloc, place)
}

/// The line that answers a word, without a line end; a word that isn't an address is answered as an
/// address without a place.
pub fn word_line<R: Reader>(
    alloc: Global,
    context: &mut Context<R>,
    word: &str,
) -> Result<String, AllocError>
    requires { NeverRefuses context.old.value.plain.context }
    ensures line { IfOk result (λ line.
        string_bytes line ≡ word_text context.old.value.plain.context word.now) }
    ensures value { context.new.value ≡ context.old.value }
{
    match read_address(word) {
        Some(address) => address_line(alloc, context, address),
        None => place_line(alloc, None),
    }
}
