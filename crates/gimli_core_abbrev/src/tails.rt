//! Tables that are a tail of the one that was read before them, and share its declarations.

ghost use Rattle.std.specs.Prelude.{◌≡◌, ◌≢◌, true, MatchResult, Err, Some, Ok, IfOk, IfErr, IfSome};
ghost use Rattle.gimli_core_readers.specs.Error.TheVariants.{Memory};
ghost use Rattle.gimli_core_abbrev.specs.Declarations.{Declaration};
ghost use Rattle.gimli_core_abbrev.specs.CheckedTables.{IsDeclarationAt};
ghost use Rattle.gimli_core_abbrev.specs.TableLayout.{IsListOf, IsListAt};
ghost use Rattle.gimli_core_abbrev.specs.TableCache.{table_view};
ghost use Rattle.gimli_core_abbrev.specs.TableParsing.{declaration, table_at};

use crate::abbreviation;
use crate::owned::OwnedAbbreviation;
use crate::section::DebugAbbrev;
use crate::table::{self, Abbreviations, DeclarationList};
use gimli_core_readers::{DebugAbbrevOffset, Error, Reader, ReaderOffset, Section, borrowed};
use std::alloc::Global;
use std::rc::Rc;

// A list of declarations, and the bytes that it was read from, from one of the declarations on.
#[derive(Drop)]
pub(crate) struct ListTail<R: Reader> {
    list: Rc<DeclarationList>,
    // How many declarations come before these bytes.
    before: usize,
    input: R,
    // How many bytes come after the list.
    left_after: usize,
}

// The table at an offset, or why it can't be read. Where the offset is that of a declaration of the
// list that was read last, and not before the one that was reached there, the table is a tail of
// that list. Else it is read, and its list takes the other's place.
pub(crate) fn next_table<R: Reader>(
    alloc: Global,
    section: &DebugAbbrev<R>,
    offset: DebugAbbrevOffset<R::Offset>,
    last: &mut Option<ListTail<R>>,
) -> Result<Result<Rc<Abbreviations>, Error>, Error>
    requires { IfSome last.old (λ l. IsListOf section.now l.list.value l.before
        (R.view l.input)) }
    ensures ok { IfOk result (λ table. table_view table ≡ table_at (R.Offset.count offset.0)
        section.now) }
    ensures err { IfErr result (λ e. e ≡ Memory) }
    ensures last { IfSome last.new (λ l. IsListOf section.now l.list.value l.before
        (R.view l.input)) }
{
    match list_at(alloc, section, offset, last.take())? {
        Ok(list) => {
            let table = Rc::new(alloc, Abbreviations::from_list(&list.list, list.before)?)?;
            *last = Some(list);
            Ok(Ok(table))
        }
        Err(error) => Ok(Err(error)),
    }
}

// The declaration of a code in the table at an offset, where this is not that of a declaration of
// the list that was read last, and the table can be read, has the codes 1, 2, .. and ends where at
// least `left` bytes of the section are left. Else nothing, and the list goes on to the offset, if
// it can.
pub(crate) fn find_apart<R: Reader>(
    alloc: Global,
    section: &DebugAbbrev<R>,
    offset: DebugAbbrevOffset<R::Offset>,
    code: u64,
    left: u64,
    last: &mut Option<ListTail<R>>,
) -> Result<Option<OwnedAbbreviation>, Error>
    requires { IfSome last.old (λ l. IsListOf section.now l.list.value l.before
        (R.view l.input)) }
    ensures ok { IfOk result (λ found. IfSome found
        (IsDeclarationAt section.now (R.Offset.count offset.0))) }
    ensures err { IfErr result (λ e. e ≡ Memory) }
    ensures last { IfSome last.new (λ l. IsListOf section.now l.list.value l.before
        (R.view l.input)) }
{
    if let Some(list) = last.take() {
        if let Some(list) = skip_to(section, offset, list) {
            *last = Some(list);
            return Ok(None);
        }
    }
    section.find_alone(alloc, offset, code, left)
}

// The list at an offset, or why it can't be read: the one that was read last, if it goes that far,
// else a new one.
fn list_at<R: Reader>(
    alloc: Global,
    section: &DebugAbbrev<R>,
    offset: DebugAbbrevOffset<R::Offset>,
    last: Option<ListTail<R>>,
) -> Result<Result<ListTail<R>, Error>, Error>
    requires { IfSome last (λ l. IsListOf section.now l.list.value l.before (R.view l.input)) }
    ensures ok { IfOk result (λ list. MatchResult list
        (λ l. IsListAt section.now (R.Offset.count offset.0) l.list.value l.before
        (R.view l.input))
        (λ e. table_at (R.Offset.count offset.0) section.now ≡ Err e)) }
    ensures err { IfErr result (λ e. e ≡ Memory) }
{
    if let Some(list) = last {
        if let Some(list) = skip_to(section, offset, list) {
            return Ok(Ok(list));
        }
    }
    match read_list(alloc, section, offset) {
        Ok(list) => Ok(Ok(list)),
        Err(Error::Memory) => Err(Error::Memory), // never cached
        Err(error) => Ok(Err(error)),
    }
}

// Reads the list at an offset.
fn read_list<R: Reader>(
    alloc: Global,
    section: &DebugAbbrev<R>,
    offset: DebugAbbrevOffset<R::Offset>,
) -> Result<ListTail<R>, Error>
    ensures { MatchResult result
        (λ l. IsListAt section.now (R.Offset.count offset.0) l.list.value l.before
        (R.view l.input))
        (λ e. e ≢ Memory → table_at (R.Offset.count offset.0) section.now ≡ Err e) }
{
    let input = section.input_at(offset)?;
    let mut rest = borrowed(&input);
    let list = table::parse_list(alloc, &mut rest)?;
    let left_after = rest.slice().len();
    Ok(ListTail {
        list: Rc::new(alloc, list)?,
        before: 0,
        input,
        left_after,
    })
}

// Goes on in a list to the declaration at an offset. There is none where the offset is inside one,
// before those that were reached or after the list.
fn skip_to<R: Reader>(
    section: &DebugAbbrev<R>,
    offset: DebugAbbrevOffset<R::Offset>,
    list: ListTail<R>,
) -> Option<ListTail<R>>
    requires { IsListOf section.now list.list.value list.before (R.view list.input) }
    ensures { IfSome result (λ l. IsListAt section.now (R.Offset.count offset.0) l.list.value
        l.before (R.view l.input)) }
{
    let total = section.reader().as_bytes().len() as u64;
    let place = offset.0.into_u64();
    if total < place {
        return None;
    }
    let left = total - place;
    if left <= list.left_after as u64 {
        return None;
    }
    let ListTail {
        list,
        mut before,
        mut input,
        left_after,
    } = list;
    let count = list.as_ref().len();
    while before < count && left < input.as_bytes().len() as u64 {
        if !skip_declaration(&mut input) {
            return None;
        }
        before += 1;
    }
    if input.as_bytes().len() as u64 == left {
        Some(ListTail {
            list,
            before,
            input,
            left_after,
        })
    } else {
        None
    }
}

// Skips a declaration, if there is one that can be read.
fn skip_declaration<R: Reader>(input: &mut R) -> bool
    ensures { result ≡ true → (d : Declaration)
        × (declaration (R.view input.old) ≡ Ok (Some d, R.view input.new)) }
{
    match abbreviation::skip(input) {
        Ok(Some(_)) => true,
        Ok(None) | Err(_) => false,
    }
}
