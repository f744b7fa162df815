//! Abbreviation tables, by their codes.

ghost use Rattle.std.specs.Prelude.{◌≡◌, ℕ, ◌<◌, ◌≤◌, [], ◌∷◌, drop, length, map, option_map, is_some, Some, Ok, OnOk, IfOk, IfErr, slice_range, if◌then◌else◌};
ghost use Rattle.std.specs.Ordering.{nat_cmp};
ghost use Rattle.std.specs.BTreeMap.{get, is_at};
ghost use Rattle.std.specs.List.{slice_get};
ghost use Rattle.gimli_core_readers.specs.Calls.{ReturnsOrNoMemory, ReturnsAsOrNoMemory};
ghost use Rattle.gimli_core_readers.specs.Error.TheVariants.{Memory};
ghost use Rattle.gimli_core_abbrev.specs.AbbreviationViews.{attribute_view, with_attributes};
ghost use Rattle.gimli_core_abbrev.specs.DeclarationFacts.{KnowsAttributes};
ghost use Rattle.gimli_core_abbrev.specs.Declarations.{declaration_at, by_code};
ghost use Rattle.gimli_core_abbrev.specs.TableParsing.{table};
ghost use Rattle.gimli_core_abbrev.specs.TableLayout.{declaration_list, begin_of, place_of};

use crate::abbreviation::{self, AttributeSpecification};
use crate::declaration::{Abbreviation, CodedHead, Head};
use crate::owned::OwnedAbbreviation;
use gimli_core_readers::{EndianSlice, Endianity, Error};
use std::alloc::Global;
use std::collections::BTreeMap;
use std::marker::Model;
use std::mem::size_of;
use std::rc::Rc;

const _: () = prove!(size_of::<StoredDeclaration>() == 16);

// A declaration without its code and its attributes, and where these end among the attributes of
// all declarations, in 16 bytes.
#[derive(Clone, Copy, Debug)]
pub(crate) struct StoredDeclaration {
    end: usize,
    head: Head,
}

// Declarations in the order of their bytes. No code occurs twice.
#[derive(Debug)]
pub(crate) struct DeclarationList {
    declarations: Vec<StoredDeclaration>,
    // The attributes of all declarations, one after the other.
    attributes: Vec<AttributeSpecification>,
    // How many of them, from the first on, have the codes 1, 2, .. in order.
    in_order: usize,
    // The codes of the others.
    others: Vec<u64>,
    // The places of the others, by their codes.
    places: BTreeMap<u64, usize>,
}

impl Drop for DeclarationList {
    fn drop(self) {
        let DeclarationList {
            declarations: _,
            attributes: _,
            in_order: _,
            others: _,
            places: _,
        } = self;
    }
}

impl Model for DeclarationList {
    ghost use Rattle.std.specs.Prelude.{List};
    ghost use Rattle.std.specs.Coded.{coded_list};
    ghost use Rattle.std.specs.Ordering.{nat_cmp};
    ghost use Rattle.std.specs.BTreeMap.{get};
    ghost use Rattle.gimli_core_abbrev.specs.Declarations.{Declaration, declaration_coding};
    ghost use Rattle.gimli_core_abbrev.specs.TableLayout.{stored, IsLayout, IsStored};

    ghost Value = { List Declaration };

    ghost coded = { coded_list declaration_coding };

    ghost view = { λ l. stored l.in_order l.others.items l.attributes.items l.declarations.items };

    ghost invariant = { λ l. IsStored l.declarations.items l.in_order l.others.items
        l.attributes.items
        × IsLayout (stored l.in_order l.others.items l.attributes.items l.declarations.items)
        l.in_order (get nat_cmp l.places) };
}

impl DeclarationList {
    // The list of one declaration, which has these attributes.
    fn of_one(
        alloc: Global,
        declaration: CodedHead,
        attributes: Vec<AttributeSpecification>,
    ) -> Result<Self, Error>
        requires code { 0 < declaration.code }
        requires knows { KnowsAttributes declaration.head (map attribute_view attributes.items) }
        ensures ok { IfOk result (λ l.
            l ≡ with_attributes (map attribute_view attributes.items) declaration ∷ []) }
        ensures err { IfErr result (λ e. e ≡ Memory) }
    {
        let end = attributes.len();
        let head = declaration.head;
        let mut declarations = Vec::with_capacity(alloc, 1)?;
        declarations.push(StoredDeclaration { end, head })?;
        let mut others = Vec::new(alloc);
        let mut places = BTreeMap::new(alloc);
        if declaration.code == 1 {
            return Ok(DeclarationList {
                declarations,
                attributes,
                in_order: 1,
                others,
                places,
            });
        }
        others.push(declaration.code)?;
        put_place(&mut places, declaration.code, 0)?;
        Ok(DeclarationList {
            declarations,
            attributes,
            in_order: 0,
            others,
            places,
        })
    }

    // The list of no declaration.
    fn empty(alloc: Global) -> Self
        ensures { result ≡ [] }
    {
        DeclarationList {
            declarations: Vec::new(alloc),
            attributes: Vec::new(alloc),
            in_order: 0,
            others: Vec::new(alloc),
            places: BTreeMap::new(alloc),
        }
    }

    // How many declarations there are.
    pub(crate) fn len(&self) -> usize
        ensures { result ≡ length self.now }
    {
        self.declarations.len()
    }

    // The declaration of a code among those from a place on.
    #[inline(always)]
    fn get(&self, from: usize, code: u64) -> Option<Abbreviation<'_>>
        ensures { result ≡ declaration_at code (by_code (drop from self.now)) }
    {
        if (self.in_order as u64) < code {
            match self.places.get(&code) {
                Some(place) => {
                    if from <= *place {
                        Some(self.at(*place, code))
                    } else {
                        None
                    }
                }
                None => None,
            }
        } else if (from as u64) < code {
            Some(self.at((code - 1) as usize, code))
        } else {
            None
        }
    }

    // The declaration at a place, whose code is known.
    #[inline(always)]
    fn at(&self, place: usize, code: u64) -> Abbreviation<'_>
        requires code { 0 < code }
        requires there { option_map (λ d. d.code) (slice_get self.now place) ≡ Some code }
        ensures { slice_get self.now place ≡ Some result }
    {
        let stored = self.declarations[place];
        let declarations = self.declarations.as_slice();
        let begin = begin_of(declarations, place);
        let all = self.attributes.as_slice();
        let attributes = between(all, begin, stored.end);
        Abbreviation::of_parts(code, stored.head, attributes)
    }

    // The same list without spare capacity.
    fn shrunk(self) -> Self
        ensures { result ≡ self }
    {
        let DeclarationList {
            mut declarations,
            mut attributes,
            in_order,
            others,
            places,
        } = self;
        declarations.shrink_to_fit();
        attributes.shrink_to_fit();
        DeclarationList {
            declarations,
            attributes,
            in_order,
            others,
            places,
        }
    }
}

// Where the attributes of the declaration at a place begin.
#[inline(always)]
fn begin_of(declarations: &[StoredDeclaration], place: usize) -> usize
    requires { place ≤ length declarations.now }
    ensures { result ≡ begin_of 0 declarations.now place }
{
    if place == 0 {
        0
    } else {
        declarations[place - 1].end
    }
}

// The attributes between two places.
#[inline(always)]
fn between(
    attributes: &[AttributeSpecification],
    begin: usize,
    end: usize,
) -> &[AttributeSpecification]
    requires begins { begin ≤ end }
    requires ends { end ≤ length attributes.now }
    ensures { result.now ≡ slice_range attributes.now begin end }
{
    &attributes[begin..end]
}

// Whether a code has a place.
#[inline(always)]
fn has_place(in_order: usize, places: &BTreeMap<u64, usize>, code: u64) -> bool
    ensures { result ≡ is_some (place_of in_order (get nat_cmp places.now) code) }
{
    if (in_order as u64) < code {
        places.contains_key(&code)
    } else {
        code != 0
    }
}

// Records the place of a code.
fn put_place(places: &mut BTreeMap<u64, usize>, code: u64, place: usize) -> Result<(), Error>
    ensures ok { OnOk result ((other : ℕ) → get nat_cmp places.new other
        ≡ (if is_at (nat_cmp code) other then Some place else get nat_cmp places.old other)) }
    ensures err { IfErr result (λ e. (e ≡ Memory)
        × ((other : ℕ) → get nat_cmp places.new other ≡ get nat_cmp places.old other)) }
{
    places.insert(code, place)?;
    Ok(())
}

/// The declarations of an abbreviation table, by their codes. A contract sees them in the order of
/// their codes. Tables of one section may share the declarations that they have in common.
#[derive(Debug)]
pub struct Abbreviations {
    list: Rc<DeclarationList>,
    // The table has the declarations of the list from this one on.
    from: usize,
}

impl Drop for Abbreviations {
    fn drop(self) {
        let Abbreviations { list: _, from: _ } = self;
    }
}

impl Model for Abbreviations {
    ghost use Rattle.std.specs.Prelude.{List, drop};
    ghost use Rattle.std.specs.Coded.{coded_list};
    ghost use Rattle.gimli_core_abbrev.specs.Declarations.{Declaration, declaration_coding, by_code};

    ghost Value = { List Declaration };

    ghost coded = { coded_list declaration_coding };

    ghost view = { λ t. by_code (drop t.from t.list.value) };
}

impl Abbreviations {
    /// The table of one declaration. The only refusal is out of memory.
    pub fn of_one(alloc: Global, declaration: OwnedAbbreviation) -> Result<Self, Error>
        ensures ok { IfOk result (λ t. t ≡ declaration ∷ []) }
        ensures err { IfErr result (λ e. e ≡ Memory) }
    {
        let (declaration, attributes) = declaration.into_parts();
        let list = DeclarationList::of_one(alloc, declaration, attributes)?;
        Ok(Abbreviations {
            list: Rc::new(alloc, list)?,
            from: 0,
        })
    }

    /// The table of no declaration. The only refusal is out of memory.
    pub fn empty(alloc: Global) -> Result<Self, Error>
        ensures ok { IfOk result (λ t. t ≡ []) }
        ensures err { IfErr result (λ e. e ≡ Memory) }
    {
        Ok(Abbreviations {
            list: Rc::new(alloc, DeclarationList::empty(alloc))?,
            from: 0,
        })
    }

    // The table of a list's declarations from one on, which it shares with the list.
    pub(crate) fn from_list(list: &Rc<DeclarationList>, from: usize) -> Result<Self, Error>
        ensures ok { IfOk result (λ t. t ≡ by_code (drop from list.now.value)) }
        ensures err { IfErr result (λ e. e ≡ Memory) }
    {
        Ok(Abbreviations {
            list: list.clone()?,
            from,
        })
    }

    /// The declaration of a code, borrowed from the table. Takes constant time for the codes that
    /// came as 1, 2, .. in order, and that of a bisection for others.
    #[inline(always)]
    pub fn get(&self, code: u64) -> Option<Abbreviation<'_>>
        ensures { result ≡ declaration_at code self.now }
    {
        self.list.as_ref().get(self.from, code)
    }

    /// A copy of the declaration of a code, which needs no table. Takes the time of
    /// [`get`](Self::get), and that of copying the attributes.
    pub fn get_owned(&self, alloc: Global, code: u64) -> Result<Option<OwnedAbbreviation>, Error>
        ensures { ReturnsOrNoMemory result (Ok (declaration_at code self.now)) }
    {
        match self.get(code) {
            Some(found) => Ok(Some(OwnedAbbreviation::copy_of(alloc, &found)?)),
            None => Ok(None),
        }
    }
}

// Room for as many declarations and attributes is taken before the first, so that the tables of
// most programs are never moved while they grow.
const FIRST_DECLARATIONS: usize = 256;

const FIRST_ATTRIBUTES: usize = 1024;

// Reads declarations up to the code 0 or the end of the bytes.
#[tactic(auto, unfolding(crate::specs::TableLayout::declaration_list))]
pub(crate) fn parse_list<E: Endianity>(
    alloc: Global,
    input: &mut EndianSlice<'_, E>,
) -> Result<DeclarationList, Error>
    ensures { ReturnsAsOrNoMemory (λ l. (l, input.new)) result (declaration_list input.old) }
{
    let mut declarations = Vec::with_capacity(alloc, FIRST_DECLARATIONS)?;
    let mut attributes = Vec::with_capacity(alloc, FIRST_ATTRIBUTES)?;
    let mut in_order: usize = 0;
    let mut others = Vec::new(alloc);
    let mut places = BTreeMap::new(alloc);
    // in a variable, so that it stays in registers
    let mut rest = input.range_from(0..);
    'reading: while let Some(parsed) = abbreviation::parse(&mut rest, &mut attributes)? {
        let CodedHead { code, head } = parsed;
        if has_place(in_order, &places, code) {
            return Err(Error::DuplicateAbbreviationCode(code));
        }
        let place = declarations.len();
        let end = attributes.len();
        declarations.push(StoredDeclaration { end, head })?;
        if in_order == place && code == place as u64 + 1 {
            in_order += 1;
        } else {
            others.push(code)?;
            put_place(&mut places, code, place)?;
        }
    }
    *input = rest;
    let list = DeclarationList {
        declarations,
        attributes,
        in_order,
        others,
        places,
    };
    Ok(list.shrunk())
}

// Reads a table.
pub(crate) fn parse<E: Endianity>(
    alloc: Global,
    input: &mut EndianSlice<'_, E>,
) -> Result<Abbreviations, Error>
    ensures { ReturnsAsOrNoMemory (λ t. (t, input.new)) result (table input.old) }
{
    let list = parse_list(alloc, input)?;
    Ok(Abbreviations {
        list: Rc::new(alloc, list)?,
        from: 0,
    })
}
