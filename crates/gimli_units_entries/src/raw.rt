//! A walk over the entries of a unit, one read at a time.

ghost use Rattle.std.specs.Prelude.{◌≡◌, ◌==◌, ◌<◌, ◌≤◌, Ok, IfOk, IsTrue, OnErr, [], length, map, option_map};
ghost use Rattle.gimli_core_base.specs.View.{after, bytes_left};
ghost use Rattle.gimli_core_base.specs.Calls.{ReturnsAs, ReturnsAsOrNoMemory, ReturnsOrNoMemory, StepsAsOrNoMemory, ReadsAs, Reads};
ghost use Rattle.gimli_units_forms.specs.AbbreviationViews.{attribute_view};
ghost use Rattle.gimli_units_forms.specs.AttributeValues.{raw_attribute_of};
ghost use Rattle.gimli_units_entries.specs.EntryWalks.{IsWithin, next_offset, walk_after, entry_head, value, values, skip_values};
ghost use Rattle.gimli_units_entries.specs.EntryRows.{null_at, row, present_row};
ghost use Rattle.gimli_units_entries.specs.OtherEntries.{is_tag_of, skip_others};
ghost use Rattle.gimli_units_entries.specs.EntryViews.{entry_of, raw_attributes};
ghost use Rattle.gimli_units_entries.specs.NamedAttributes.{named_values, PassesOthers};

use crate::attributes::read_each;
use crate::codes::code_at;
use crate::entry::DebuggingInformationEntry;
use crate::named::{first_others, read_named};
use crate::others::others_after;
use gimli_core_base::error::Error;
use gimli_core_base::{DwAt, DwTag, Encoding, ReaderOffset};
use gimli_units_forms::{
    Abbreviation, Abbreviations, Attribute, AttributeSpecification, parse_attribute_inline,
    skip_attributes, skip_entry,
};
use gimli_units_headers::{Reader, UnitOffset};
use std::marker::Model;

/// A walk over the entries of a unit: codes and attributes are read in turn.
#[derive(Drop)]
pub struct EntriesRaw<'abbrev, R: Reader> {
    pub(crate) input: R,
    pub(crate) encoding: Encoding,
    pub(crate) abbreviations: &'abbrev Abbreviations,
    pub(crate) end_offset: UnitOffset<R::Offset>,
    pub(crate) depth: isize,
}

impl<'abbrev, R: Reader> Model for EntriesRaw<'abbrev, R> {
    ghost use Rattle.gimli_units_entries.specs.EntryWalks.{Walk, IsWithin};

    ghost Value = { Walk };

    ghost view = { λ e. record {
      encoding = e.encoding;
      table = e.abbreviations.now;
      end_offset = R.Offset.count e.end_offset.0;
      depth = e.depth;
      rest = R.view e.input;
    } };

    ghost invariant = { λ e. IsWithin (record {
      encoding = e.encoding;
      table = e.abbreviations.now;
      end_offset = R.Offset.count e.end_offset.0;
      depth = e.depth;
      rest = R.view e.input;
    }) };
}

impl<'abbrev, R: Reader> EntriesRaw<'abbrev, R> {
    /// Whether no byte of the unit is left.
    pub fn is_empty(&self) -> bool
        ensures { result ≡ (bytes_left self.now.rest == 0) }
    {
        self.input.is_empty()
    }

    /// The offset of the next byte in the unit.
    pub fn next_offset(&self) -> UnitOffset<R::Offset>
        ensures value { R.Offset.count result.0 ≡ next_offset self.now }
        ensures within { IsWithin self.now }
    {
        UnitOffset(self.end_offset.0.checked_sub(self.input.len()).unwrap())
    }

    /// The depth of the next entry: 0 where the walk began.
    pub fn next_depth(&self) -> isize
        ensures { result ≡ self.now.depth }
    {
        self.depth
    }

    /// Reads the next entry's code, and returns its declaration; none for a null entry, which ends
    /// the children of an entry (DWARF 5, 7.5.2). Takes no memory. A refusal leaves the walk as it
    /// was.
    #[inline(always)]
    #[tactic(auto, unfolding(crate::specs::EntryWalks::entry_head))]
    pub fn read_abbreviation(&mut self) -> Result<Option<Abbreviation<'abbrev>>, Error>
        ensures { Reads result self.old self.new (entry_head self.old) }
    {
        let (abbreviation, length) = self.next_abbreviation()?;
        self.pass(length, &abbreviation);
        Ok(abbreviation)
    }

    /// Reads the next attribute, as its declaration describes it. A refusal leaves the walk as it
    /// was. Inlined: moving the attribute to the caller would take longer than reading it.
    #[inline(always)]
    #[tactic(auto, unfolding(crate::specs::EntryWalks::value))]
    pub fn read_attribute(
        &mut self,
        specification: AttributeSpecification,
    ) -> Result<Attribute<R>, Error>
        ensures value { StepsAsOrNoMemory (raw_attribute_of R.view R.Offset.count) result self.old
            self.new
            (value R.Offset.limit (attribute_view specification)) }
        // Where copies take no memory, this takes none.
        ensures free { IsTrue R.copies_freely
            → ReadsAs (raw_attribute_of R.view R.Offset.count) result self.old self.new
            (value R.Offset.limit (attribute_view specification) self.old) }
    {
        parse_attribute_inline(&mut self.input, self.encoding, specification)
    }

    /// The same as [`read_attribute`](Self::read_attribute).
    #[inline(always)]
    pub fn read_attribute_inline(
        &mut self,
        specification: AttributeSpecification,
    ) -> Result<Attribute<R>, Error>
        ensures value { StepsAsOrNoMemory (raw_attribute_of R.view R.Offset.count) result self.old
            self.new
            (value R.Offset.limit (attribute_view specification)) }
        // Where copies take no memory, this takes none.
        ensures free { IsTrue R.copies_freely
            → ReadsAs (raw_attribute_of R.view R.Offset.count) result self.old self.new
            (value R.Offset.limit (attribute_view specification) self.old) }
    {
        self.read_attribute(specification)
    }

    /// Skips the attributes that declarations describe, by their widths alone. Takes no memory. A
    /// refusal leaves the walk as it was.
    #[inline(always)]
    #[tactic(auto, unfolding(crate::specs::EntryWalks::skip_values))]
    pub fn skip_attributes(
        &mut self,
        specifications: &[AttributeSpecification],
    ) -> Result<(), Error>
        ensures { Reads result self.old self.new
            (skip_values (map attribute_view specifications.now) self.old) }
    {
        skip_attributes(&mut self.input, self.encoding, specifications)
    }

    /// Skips the first of the attributes that declarations describe, in one run of bytes: as long
    /// as they have none of these names, reading refuses them only where their bytes are missing,
    /// and they are there. Returns the declarations from the one on that is to be read. Takes no
    /// memory. Compares the name of each attribute with all of these.
    #[inline(always)]
    pub fn skip_other_attributes<'s>(
        &mut self,
        specifications: &'s [AttributeSpecification],
        names: &[DwAt],
    ) -> &'s [AttributeSpecification]
        ensures passes { PassesOthers names.now (values R.Offset.limit)
            (map attribute_view specifications.now) self.old
            (map attribute_view result.now) self.new }
        ensures fewer { length result.now ≤ length specifications.now }
    {
        let (count, left) = first_others(&self.input, self.encoding, specifications, names);
        self.input.advance(count);
        left
    }

    /// Skips the attributes of an entry whose declaration has been read, by their widths alone.
    /// Takes no memory. A refusal leaves the walk as it was.
    #[inline(always)]
    #[tactic(auto, unfolding(crate::specs::EntryWalks::skip_values))]
    pub fn skip_entry(&mut self, abbreviation: &Abbreviation<'_>) -> Result<(), Error>
        ensures { Reads result self.old self.new
            (skip_values abbreviation.now.attributes self.old) }
    {
        skip_entry(&mut self.input, self.encoding, abbreviation)
    }

    /// Skips entries, with their attributes by their widths alone, as long as the depth of the next
    /// one is above a bound. Stops before an entry with one of these tags, before one that can't be
    /// read or skipped, and at the unit's end. Null entries are skipped too. Takes no memory.
    pub fn skip_others(&mut self, tags: &[DwTag], bound: isize)
        ensures { self.new ≡ skip_others (is_tag_of tags.now) bound self.old }
    {
        let (count, depth) = others_after(
            &self.input,
            self.encoding,
            self.abbreviations,
            self.depth,
            tags,
            bound,
        );
        self.input.advance(count);
        self.depth = depth;
    }

    /// Reads the attributes that declarations describe into a list, in place of its contents, and
    /// reuses its memory. A refusal leaves the walk as it was, and the list empty.
    #[tactic(auto, unfolding(crate::specs::EntryWalks::values))]
    pub fn read_attributes(
        &mut self,
        specifications: &[AttributeSpecification],
        attrs: &mut Vec<Attribute<R>>,
    ) -> Result<(), Error>
        ensures value { StepsAsOrNoMemory
            (λ _. raw_attributes R.view R.Offset.count attrs.new.items) result self.old self.new
            (values R.Offset.limit (map attribute_view specifications.now)) }
        ensures refusal { OnErr result (attrs.new.items ≡ []) }
    {
        let count = read_each(attrs, &self.input, 0, self.encoding, specifications)?;
        self.input.advance(count);
        Ok(())
    }

    /// Reads the attributes that declarations describe, and puts those with these names into a
    /// list, in place of its contents, reusing its memory. Of the others, those that reading
    /// refuses only where their bytes are missing are skipped by their widths. A refusal leaves the
    /// walk as it was, and the list empty. Compares the name of each attribute with all of these.
    #[tactic(auto, unfolding(crate::specs::EntryWalks::values))]
    pub fn read_named_attributes(
        &mut self,
        specifications: &[AttributeSpecification],
        names: &[DwAt],
        attrs: &mut Vec<Attribute<R>>,
    ) -> Result<(), Error>
        ensures value { StepsAsOrNoMemory
            (λ _. raw_attributes R.view R.Offset.count attrs.new.items) result self.old self.new
            (named_values R.Offset.limit names.now (map attribute_view specifications.now)) }
        ensures refusal { OnErr result (attrs.new.items ≡ []) }
    {
        let count = read_named(attrs, &self.input, self.encoding, specifications, names)?;
        self.input.advance(count);
        Ok(())
    }

    /// Reads the next entry with its attributes into this one, whose memory is reused, and returns
    /// whether it isn't a null entry. A refusal leaves the walk as it was, and makes this the null
    /// entry at the walk's place.
    #[tactic(auto, unfolding(crate::specs::EntryRows::row, crate::specs::EntryWalks::values))]
    pub fn read_entry(&mut self, entry: &mut DebuggingInformationEntry<R>) -> Result<bool, Error>
        ensures value { StepsAsOrNoMemory
            (λ is_present. (is_present, entry_of R.view R.Offset.count entry.new)) result
            self.old self.new (present_row R.Offset.limit) }
        ensures refusal { OnErr result
            (entry_of R.view R.Offset.count entry.new
            ≡ null_at (next_offset self.old) self.old.depth) }
    {
        entry.set_null(self.next_offset(), self.next_depth());
        let (abbreviation, length) = self.next_abbreviation()?;
        let Some(abbreviation) = abbreviation else {
            self.pass(length, &None);
            return Ok(false);
        };
        let specifications = abbreviation.attributes();
        let count = read_each(
            &mut entry.attrs,
            &self.input,
            length,
            self.encoding,
            specifications,
        )?;
        entry.tag = abbreviation.tag();
        entry.has_children = abbreviation.has_children();
        self.pass(count, &Some(abbreviation));
        Ok(!entry.is_null())
    }

    // The next entry's declaration, and how many bytes its code takes.
    #[inline(always)]
    #[tactic(auto, unfolding(crate::specs::EntryWalks::entry_head))]
    fn next_abbreviation(&self) -> Result<(Option<Abbreviation<'abbrev>>, usize), Error>
        ensures value { ReturnsAs (λ p. (p.0, walk_after p.1 p.0 self.now)) result
            (entry_head self.now) }
        ensures some { IfOk result (λ p. 0 < p.1) }
        ensures within { IfOk result (λ p. p.1 ≤ bytes_left self.now.rest) }
    {
        let (code, length) = code_at(&self.input)?;
        if code == 0 {
            return Ok((None, length));
        }
        let table = self.abbreviations;
        match table.get(code) {
            Some(abbreviation) => Ok((Some(abbreviation), length)),
            None => Err(Error::InvalidAbbreviationCode(code)),
        }
    }

    // Moves past bytes that begin with the code of an entry.
    #[inline(always)]
    fn pass(&mut self, count: usize, abbreviation: &Option<Abbreviation<'_>>)
        requires some { 0 < count }
        requires within { count ≤ bytes_left self.old.rest }
        ensures { self.new ≡ walk_after count abbreviation.now self.old }
    {
        self.input.advance(count);
        let Some(abbreviation) = abbreviation else {
            self.depth -= 1;
            return;
        };
        if abbreviation.has_children() {
            self.depth += 1;
        }
    }
}
