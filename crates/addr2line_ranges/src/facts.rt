//! What the attributes of a root say together: of each kind of fact the last.

ghost use Rattle.std.specs.Prelude.{◌≡◌};
ghost use Rattle.gimli_lines_rows.specs.Calls.{ReturnsOrNoMemory};
ghost use Rattle.gimli_dwarf.specs.EntryViews.{raw_attributes};
ghost use Rattle.addr2line_ranges.specs.LastFacts.{range_fact, no_facts, with_fact, facts_of};

use crate::fact::{Fact, fact_of};
use gimli_dwarf::UnitRef;
use gimli_lines_rows::{Attribute, Error, RangeListsOffset, Reader, ReaderOffset};
use std::marker::Model;

/// The last facts of a root.
#[derive(Drop)]
pub struct LastFacts<O: ReaderOffset> {
    pub begin: Option<u64>,
    pub end: Option<u64>,
    pub size: Option<u64>,
    pub list: Option<Option<RangeListsOffset<O>>>,
}

impl<O: ReaderOffset> Model for LastFacts<O> {
    ghost use Rattle.std.specs.Prelude.{option_map};
    ghost use Rattle.addr2line_ranges.specs.LastFacts.{LastFacts as LastFactsPart};

    ghost Value = { LastFactsPart };

    ghost view = { λ f. record {
      begin = f.begin;
      end = f.end;
      size = f.size;
      list = option_map (λ list. option_map (λ o. O.count o.0) list) f.list;
    } };
}

impl<O: ReaderOffset> LastFacts<O> {
    /// Before the first fact.
    pub fn none() -> Self
        ensures { result ≡ no_facts }
    {
        LastFacts {
            begin: None,
            end: None,
            size: None,
            list: None,
        }
    }

    /// Takes a further fact.
    pub fn take(&mut self, fact: Fact<O>)
        ensures { self.new ≡ with_fact (range_fact O.count fact) self.old }
    {
        match fact {
            Fact::BeginsAt(address) => self.begin = Some(address),
            Fact::EndsAt(address) => self.end = Some(address),
            Fact::HasSize(size) => self.size = Some(size),
            Fact::HasList(list) => self.list = Some(list),
            Fact::NoFact => {}
        }
    }
}

/// The last facts of a root's attributes, or the refusal of the first of them that is refused.
pub fn facts_of<R: Reader>(
    unit: &UnitRef<'_, R>,
    attributes: &[Attribute<R>],
) -> Result<LastFacts<R::Offset>, Error>
    ensures { ReturnsOrNoMemory result
        (facts_of unit.now
        (raw_attributes R.view R.Offset.count attributes.now)) }
{
    let mut found = LastFacts::none();
    for attribute in attributes {
        found.take(fact_of(unit, attribute)?);
    }
    Ok(found)
}
