//! One declaration of each table that was checked, and isn't kept.

ghost use Rattle.std.specs.Prelude.{◌≡◌, ℕ, [], ◌∷◌, None, Ok, IfOk, IfSome};
ghost use Rattle.std.specs.Option.{option_to_list};
ghost use Rattle.std.specs.FinMap as finite_map;
ghost use Rattle.gimli_core_readers.specs.Calls.{ReturnsOrNoMemory};
ghost use Rattle.gimli_core_readers.specs.View.{View};
ghost use Rattle.gimli_core_abbrev.specs.Declarations.{declaration_at};
ghost use Rattle.gimli_core_abbrev.specs.CheckedTables.{HasAt, AreDeclarationsOf};

use crate::owned::OwnedAbbreviation;
use gimli_core_readers::{DebugAbbrevOffset, Error, ReaderOffset};
use std::alloc::Global;
use std::collections::BTreeMap;
use std::marker::Model;

/// One declaration of each table that was checked and isn't kept, by the tables' offsets, which
/// contracts see as a finite map. The root of a unit has one declaration of its table, and is read
/// without that table where it is this one. They come from
/// [`AbbreviationsCache::populate_shared`](crate::AbbreviationsCache::populate_shared).
#[derive(Debug)]
pub struct CheckedTables {
    pub(crate) kept: BTreeMap<u64, OwnedAbbreviation>,
}

impl Drop for CheckedTables {
    fn drop(self) {
        let CheckedTables { kept: _ } = self;
    }
}

impl Model for CheckedTables {
    ghost use Rattle.std.specs.FinMap.{from_entries};
    ghost use Rattle.gimli_core_abbrev.specs.CheckedTables.{DeclarationsByOffset, declarations_coding};

    ghost Value = { DeclarationsByOffset };

    ghost coded = { declarations_coding };

    ghost view = { λ c. from_entries c.kept.entries };
}

impl CheckedTables {
    /// Those of no tables.
    pub fn new(alloc: Global) -> Self
        ensures empty { result ≡ finite_map.empty }
        ensures none { (offset : ℕ) → finite_map.get result offset ≡ None }
    {
        CheckedTables {
            kept: BTreeMap::new(alloc),
        }
    }

    /// A copy of the declaration of a code in the table at an offset, where that table was checked
    /// and this is the declaration that is kept. Takes the time of a bisection and that of copying
    /// the attributes. The only refusal is out of memory.
    pub fn find<O: ReaderOffset>(
        &self,
        alloc: Global,
        offset: DebugAbbrevOffset<O>,
        code: u64,
    ) -> Result<Option<OwnedAbbreviation>, Error>
        ensures value { ReturnsOrNoMemory result (Ok (declaration_at code
            (option_to_list (finite_map.get self.now (O.count offset.0))))) }
        // It is the section's own, where the declarations are those of a section.
        ensures own { (section : View) → AreDeclarationsOf section self.now → IfOk result
            (λ found. IfSome found (HasAt section (O.count offset.0) code)) }
    {
        match self.kept.get(&offset.0.into_u64()) {
            Some(kept) => copy_with_code(alloc, kept, code),
            None => Ok(None),
        }
    }
}

// A copy of a declaration, where it has this code.
fn copy_with_code(
    alloc: Global,
    kept: &OwnedAbbreviation,
    code: u64,
) -> Result<Option<OwnedAbbreviation>, Error>
    ensures { ReturnsOrNoMemory result (Ok (declaration_at code (kept.now ∷ []))) }
{
    let kept = kept.as_abbreviation();
    if kept.code() != code {
        return Ok(None);
    }
    Ok(Some(OwnedAbbreviation::copy_of(alloc, &kept)?))
}
