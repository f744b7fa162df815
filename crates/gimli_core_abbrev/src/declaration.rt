//! A declaration of an abbreviation table.

ghost use Rattle.std.specs.Prelude.{◌≡◌, ◌<◌, List, map};
ghost use Rattle.gimli_core_abbrev.specs.AttributeViews.{attribute_view};
ghost use Rattle.gimli_core_abbrev.specs.AbbreviationViews.{declaration_of_parts, with_attributes};
ghost use Rattle.gimli_core_abbrev.specs.DeclarationFacts.{names_ranges, KnowsRead, KnowsAttributes};
ghost use Rattle.gimli_core_abbrev.specs.Declarations.{Attribute};
ghost use Rattle.gimli_core_abbrev.specs.FormWidths.{AreWidthsOf};

use crate::abbreviation::AttributeSpecification;
use crate::facts::AttributeFacts;
use crate::widths::{FixedWidths, PackedWidths};
use gimli_core_readers::DwTag;
use std::marker::Model;

// What a declaration says before its attributes, and what is known of these.
#[derive(Clone, Copy, Debug, PartialEq, Eq)]
pub(crate) struct Head {
    tag: DwTag,
    has_children: bool,
    has_ranges: bool,
    widths: PackedWidths,
}

impl Head {
    // The head of a declaration, with the facts about its attributes.
    #[inline(always)]
    pub(crate) fn new(tag: DwTag, has_children: bool, facts: AttributeFacts) -> Self
        ensures parts { (result.tag ≡ tag) × (result.has_children ≡ has_children) }
        ensures knows { (attributes : List Attribute) → KnowsRead facts attributes
            → KnowsAttributes result attributes }
    {
        Head {
            tag,
            has_children,
            has_ranges: facts.has_ranges(),
            widths: facts.widths(),
        }
    }
}

// A declaration without its attributes.
#[derive(Clone, Copy, Debug)]
pub(crate) struct CodedHead {
    pub(crate) code: u64,
    pub(crate) head: Head,
}

/// What entries of one code have in common: a declaration, borrowed from its table. No declaration
/// has the code 0, which is that of null entries.
#[derive(Debug, Drop)]
pub struct Abbreviation<'table> {
    code: u64,
    head: Head,
    attributes: &'table [AttributeSpecification],
}

impl<'table> Model for Abbreviation<'table> {
    ghost use Rattle.std.specs.Prelude.{◌<◌, map};
    ghost use Rattle.gimli_core_abbrev.specs.Declarations.{Declaration, declaration_coding};
    ghost use Rattle.gimli_core_abbrev.specs.AttributeViews.{attribute_view};
    ghost use Rattle.gimli_core_abbrev.specs.AbbreviationViews.{declaration_of_parts};
    ghost use Rattle.gimli_core_abbrev.specs.DeclarationFacts.{KnowsAttributes};

    ghost Value = { Declaration };

    ghost coded = { declaration_coding };

    ghost view = { λ a. declaration_of_parts a.code a.head (map attribute_view a.attributes.now) };

    ghost invariant = { λ a. (0 < a.code)
        × KnowsAttributes a.head (map attribute_view a.attributes.now) };
}

/// Compares all that declarations say.
impl<'table> PartialEq for Abbreviation<'table> {
    ghost use Rattle.gimli_core_abbrev.specs.DeclarationEquality.{is_same_declaration, same_declaration_laws};
    ghost use Rattle.std.specs.Cmp.{partial_equiv_from_equiv};

    ghost eq = { is_same_declaration };

    ghost laws = { partial_equiv_from_equiv same_declaration_laws };

    fn eq(&self, other: &Self) -> bool {
        self.code == other.code
            && (self.head.tag == other.head.tag
                && (self.head.has_children == other.head.has_children
                    && self.attributes == other.attributes))
    }
}

impl<'table> Eq for Abbreviation<'table> {
    ghost use Rattle.gimli_core_abbrev.specs.DeclarationEquality.{same_declaration_laws};

    ghost laws = { same_declaration_laws };
}

impl<'table> Abbreviation<'table> {
    // The declaration that has these parts.
    #[inline(always)]
    pub(crate) fn of_parts(
        code: u64,
        head: Head,
        attributes: &'table [AttributeSpecification],
    ) -> Self
        requires code { 0 < code }
        requires knows { KnowsAttributes head (map attribute_view attributes.now) }
        ensures { result
            ≡ declaration_of_parts code head (map attribute_view attributes.now) }
    {
        Abbreviation {
            code,
            head,
            attributes,
        }
    }

    /// The code by which entries name it.
    #[inline(always)]
    pub fn code(&self) -> u64
        ensures { result ≡ self.now.code }
    {
        self.code
    }

    /// The tag of its entries.
    #[inline(always)]
    pub fn tag(&self) -> DwTag
        ensures { result.0 ≡ self.now.tag }
    {
        self.head.tag
    }

    /// Whether entries of this code may have children.
    #[inline(always)]
    pub fn has_children(&self) -> bool
        ensures { result ≡ self.now.has_children }
    {
        self.head.has_children
    }

    /// Whether one of the attributes is `DW_AT_low_pc`, `DW_AT_high_pc` or `DW_AT_ranges` (DWARF 5,
    /// 2.17). Known since the declaration was parsed.
    #[inline(always)]
    pub fn has_ranges(&self) -> bool
        ensures { result ≡ names_ranges self.now.attributes }
    {
        self.head.has_ranges
    }

    /// The attributes in the order in which an entry gives their values.
    #[inline(always)]
    pub fn attributes(&self) -> &'table [AttributeSpecification]
        ensures { map attribute_view result.now ≡ self.now.attributes }
    {
        self.attributes
    }

    /// The widths of the values of the first attributes, where their forms alone determine them.
    #[inline(always)]
    pub fn fixed_widths(&self) -> FixedWidths
        ensures { AreWidthsOf self.now.attributes result }
    {
        self.head.widths.unpacked()
    }

    // What the declaration says before its attributes, and what is known of these.
    #[inline(always)]
    pub(crate) fn coded_head(&self) -> CodedHead
        ensures parts { self.now ≡ with_attributes self.now.attributes result }
        ensures code { 0 < result.code }
        ensures knows { KnowsAttributes result.head self.now.attributes }
    {
        CodedHead {
            code: self.code,
            head: self.head,
        }
    }
}
