//! A declaration that outlives its table.

ghost use Rattle.std.specs.Prelude.{◌≡◌, ◌<◌, map, IfOk, IfErr};
ghost use Rattle.gimli_core_readers.specs.Calls.{ReturnsAsOrNoMemory};
ghost use Rattle.gimli_core_readers.specs.Error.TheVariants.{Memory};
ghost use Rattle.gimli_core_abbrev.specs.AbbreviationViews.{attribute_view, with_attributes};
ghost use Rattle.gimli_core_abbrev.specs.DeclarationFacts.{KnowsAttributes};
ghost use Rattle.gimli_core_abbrev.specs.TableParsing.{declaration};

use crate::abbreviation::{self, AttributeSpecification};
use crate::declaration::{Abbreviation, CodedHead, Head};
use gimli_core_readers::{EndianSlice, Endianity, Error};
use std::alloc::Global;
use std::marker::Model;

/// What entries of one code have in common: a declaration that owns its attributes, and needs no
/// table.
#[derive(Debug)]
pub struct OwnedAbbreviation {
    code: u64,
    head: Head,
    attributes: Vec<AttributeSpecification>,
}

impl Drop for OwnedAbbreviation {
    fn drop(self) {
        let OwnedAbbreviation {
            code: _,
            head: _,
            attributes: _,
        } = self;
    }
}

impl Model for OwnedAbbreviation {
    ghost use Rattle.std.specs.Prelude.{◌<◌, map};
    ghost use Rattle.gimli_core_abbrev.specs.Declarations.{Declaration, declaration_coding};
    ghost use Rattle.gimli_core_abbrev.specs.AttributeViews.{attribute_view};
    ghost use Rattle.gimli_core_abbrev.specs.AbbreviationViews.{declaration_of_parts};
    ghost use Rattle.gimli_core_abbrev.specs.DeclarationFacts.{KnowsAttributes};

    ghost Value = { Declaration };

    ghost coded = { declaration_coding };

    ghost view = { λ a. declaration_of_parts a.code a.head
        (map attribute_view a.attributes.items) };

    ghost invariant = { λ a. (0 < a.code)
        × KnowsAttributes a.head (map attribute_view a.attributes.items) };
}

impl OwnedAbbreviation {
    /// The declaration, borrowed, as a table gives it.
    pub fn as_abbreviation(&self) -> Abbreviation<'_>
        ensures { result ≡ self.now }
    {
        Abbreviation::of_parts(self.code, self.head, self.attributes.as_slice())
    }

    // What it says before its attributes, and the attributes.
    pub(crate) fn into_parts(self) -> (CodedHead, Vec<AttributeSpecification>)
        ensures parts { self ≡ with_attributes (map attribute_view result.1.items) result.0 }
        ensures code { 0 < result.0.code }
        ensures knows { KnowsAttributes result.0.head (map attribute_view result.1.items) }
    {
        let OwnedAbbreviation {
            code,
            head,
            attributes,
        } = self;
        (CodedHead { code, head }, attributes)
    }

    // A copy of a declaration.
    pub(crate) fn copy_of(alloc: Global, abbreviation: &Abbreviation<'_>) -> Result<Self, Error>
        ensures ok { IfOk result (λ copy. copy ≡ abbreviation.now) }
        ensures err { IfErr result (λ e. e ≡ Memory) }
    {
        let attributes = Vec::from_slice(alloc, abbreviation.attributes())?;
        let CodedHead { code, head } = abbreviation.coded_head();
        Ok(OwnedAbbreviation {
            code,
            head,
            attributes,
        })
    }

    // Reads a declaration, or none where the table ends.
    pub(crate) fn parse<E: Endianity>(
        alloc: Global,
        input: &mut EndianSlice<'_, E>,
    ) -> Result<Option<Self>, Error>
        ensures { ReturnsAsOrNoMemory (λ a. (a, input.new)) result (declaration input.old) }
    {
        let mut attributes = Vec::new(alloc);
        let Some(parsed) = abbreviation::parse(input, &mut attributes)? else {
            return Ok(None);
        };
        let CodedHead { code, head } = parsed;
        Ok(Some(OwnedAbbreviation {
            code,
            head,
            attributes,
        }))
    }
}
