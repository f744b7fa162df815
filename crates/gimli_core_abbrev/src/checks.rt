//! Checks of tables that aren't kept, except for one declaration.

ghost use Rattle.std.specs.Prelude.{◌≡◌, ◌≤◌, ◌<◌, Some, Ok, IfOk, IfErr, IfSome};
ghost use Rattle.gimli_core_readers.specs.Calls.{Returns, ReturnsOrNoMemory};
ghost use Rattle.gimli_core_readers.specs.Error.TheVariants.{Memory};
ghost use Rattle.gimli_core_readers.specs.Parsers.{value_of};
ghost use Rattle.gimli_core_readers.specs.Repetition.{listing_in};
ghost use Rattle.gimli_core_readers.specs.View.{bytes_left};
ghost use Rattle.gimli_core_readers.specs.Results.{refusal_of};
ghost use Rattle.gimli_core_abbrev.specs.TableParsing.{declaration, table};
ghost use Rattle.gimli_core_abbrev.specs.TableChecks.{find_declaration, FindsNone, IsInOrder, SkipsInOrder, SeeksInOrder};

use crate::owned::OwnedAbbreviation;
use crate::{abbreviation, table};
use gimli_core_readers::{EndianSlice, Endianity, Error, Reader, borrowed};
use std::alloc::Global;

// What ended a run of declarations whose codes are in order.
pub(crate) enum Skipped {
    // The end of the table.
    Ended,
    // The last of the codes.
    Counted,
    // A declaration with another code, which was skipped as well.
    Unordered,
}

// Where the declaration of a code is in a table whose codes are in order.
pub(crate) enum CodePlace {
    // It begins here.
    Here,
    // The table has no such code.
    Nowhere,
    // The codes of the table aren't in order.
    NotInOrder,
}

// Skips declarations whose codes are the next ones in order, up to the last of a number of codes.
fn skip_in_order<R: Reader>(input: &mut R, first: u64, limit: u64) -> Result<Skipped, Error>
    requires { first ≤ limit }
    ensures { SkipsInOrder first limit result (R.view input.old) (R.view input.new) }
{
    let mut passed = first;
    while passed < limit {
        let Some(code) = abbreviation::skip(input)? else {
            return Ok(Skipped::Ended);
        };
        if code != passed + 1 {
            return Ok(Skipped::Unordered);
        }
        passed += 1;
    }
    Ok(Skipped::Counted)
}

// The declaration of a code in a table that can be read and whose codes are 1, 2, .., if it has one
// and ends where at least `left` bytes are left. Only the declaration's attributes take memory.
pub(crate) fn find_alone<R: Reader>(
    alloc: Global,
    reader: &R,
    code: u64,
    left: u64,
) -> Result<Option<OwnedAbbreviation>, Error>
    ensures ok { IfOk result (λ found. IfSome found (λ d. (d.code ≡ code)
        × (find_declaration code (value_of (table (R.view reader.now))) ≡ Ok (Some d)))) }
    ensures err { IfErr result (λ e. e ≡ Memory) }
{
    let mut place = borrowed(reader);
    let limit = place.slice().len() as u64;
    if code == 0 || limit < code {
        return Ok(None); // each declaration takes a byte at least
    }
    let Ok(before) = skip_in_order(&mut place, 0, code - 1) else {
        return Ok(None);
    };
    match before {
        Skipped::Counted => {}
        Skipped::Ended | Skipped::Unordered => return Ok(None),
    }
    let mut rest = borrowed(&place);
    let Ok(after) = skip_in_order(&mut rest, code - 1, limit) else {
        return Ok(None);
    };
    match after {
        Skipped::Ended => {}
        Skipped::Counted | Skipped::Unordered => return Ok(None),
    }
    if (rest.slice().len() as u64) < left {
        return Ok(None);
    }
    match OwnedAbbreviation::parse(alloc, &mut place) {
        Ok(found) => Ok(found),
        Err(_) => Err(Error::Memory), // it was read just now
    }
}

// Checks that a table can be read. Takes no memory where the codes are 1, 2, ..
pub(crate) fn check<R: Reader>(alloc: Global, reader: &R) -> Result<(), Error>
    ensures value { ReturnsOrNoMemory result (refusal_of (value_of (table (R.view reader.now)))) }
    ensures free { IsInOrder (listing_in bytes_left declaration (R.view reader.now)).items
        → Returns result (refusal_of (value_of (table (R.view reader.now)))) }
{
    let mut place = borrowed(reader);
    let limit = place.slice().len() as u64;
    match skip_in_order(&mut place, 0, limit)? {
        Skipped::Ended => Ok(()),
        Skipped::Counted => Ok(()), // no byte is left
        Skipped::Unordered => {
            let _table = table::parse(alloc, &mut borrowed(reader))?;
            Ok(())
        }
    }
}

// The declaration of a code in a table, refused where the table is. Where the codes are 1, 2, ..,
// only the declaration's attributes take memory.
pub(crate) fn find<R: Reader>(
    alloc: Global,
    reader: &R,
    code: u64,
) -> Result<Option<OwnedAbbreviation>, Error>
    ensures value { ReturnsOrNoMemory result
        (find_declaration code (value_of (table (R.view reader.now)))) }
    ensures free { IsInOrder (listing_in bytes_left declaration (R.view reader.now)).items
        → FindsNone (find_declaration code (value_of (table (R.view reader.now))))
        → Returns result (find_declaration code (value_of (table (R.view reader.now)))) }
{
    if code == 0 {
        check(alloc, reader)?;
        return Ok(None); // no table has this code
    }
    let mut place = borrowed(reader);
    match seek(&mut place, code)? {
        CodePlace::Here => OwnedAbbreviation::parse(alloc, &mut place),
        CodePlace::Nowhere => Ok(None),
        CodePlace::NotInOrder => find_in_table(alloc, reader, code),
    }
}

// Goes on to the declaration of a code. The declarations after it are skipped as well, to check
// them.
fn seek<E: Endianity>(place: &mut EndianSlice<'_, E>, code: u64) -> Result<CodePlace, Error>
    requires { 0 < code }
    ensures { SeeksInOrder code result place.old place.new }
{
    let limit = place.slice().len() as u64;
    match skip_in_order(place, 0, code - 1)? {
        Skipped::Ended => return Ok(CodePlace::Nowhere),
        Skipped::Counted => {}
        Skipped::Unordered => return Ok(CodePlace::NotInOrder),
    }
    let mut rest = borrowed(&*place);
    let Some(next) = abbreviation::skip(&mut rest)? else {
        return Ok(CodePlace::Nowhere);
    };
    if next != code {
        return Ok(CodePlace::NotInOrder);
    }
    match skip_in_order(&mut rest, code, limit)? {
        Skipped::Ended => Ok(CodePlace::Here),
        Skipped::Counted => Ok(CodePlace::Here), // no byte is left
        Skipped::Unordered => Ok(CodePlace::NotInOrder),
    }
}

// The declaration of a code, from the whole table.
fn find_in_table<R: Reader>(
    alloc: Global,
    reader: &R,
    code: u64,
) -> Result<Option<OwnedAbbreviation>, Error>
    ensures { ReturnsOrNoMemory result
        (find_declaration code (value_of (table (R.view reader.now)))) }
{
    let declarations = table::parse(alloc, &mut borrowed(reader))?;
    declarations.get_owned(alloc, code)
}
