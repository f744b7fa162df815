//! Searches for an address among units: what each finds, and what it makes of a refusal.

ghost use Rattle.std.specs.Prelude.{◌≡◌, ℕ, Bool, List, Err};
ghost use Rattle.addr2line_unit.specs.Error.{Error};
ghost use Rattle.addr2line_unit.specs.Error.TheVariants.{Memory};
ghost use Rattle.addr2line_unit.specs.FirstAnswers.{Lookup};
ghost use Rattle.addr2line_unit.specs.EntryReferences.{KnownUnits};
ghost use Rattle.addr2line_unit.specs.ResolvedUnits.{AnsweredUnit, ResolvedUnit};
ghost use Rattle.addr2line_lookups.specs.AddressSearches.{EndsSearch, SettlesFrom};

use crate::frame_place::FramePlace;
use crate::settled::Settled;
use addr2line_unit::Error;

// A search for an address among units, one after the other.
pub(crate) trait AddressSearch {
    // What it finds.
    type Found: Drop;

    // What a unit answers.
    ghost Answer: { Type 0 };

    // Whether that is something, which ends the search.
    ghost is_something: { Answer → Bool };

    ghost nothing: { Answer };

    ghost ask: { KnownUnits → ℕ → AnsweredUnit → Answer };

    // This is what was found in units where a lookup gives that.
    ghost Finds: { List AnsweredUnit → List ResolvedUnit → Lookup Answer → Self.Found → Type 0 };

    // This may refuse the search where a lookup gives that.
    ghost Refuses: { Lookup Answer → Error → Type 0 };

    // What it makes of the frames of the address in the unit of a number, or of their refusal.
    fn settle(
        number: usize,
        frames: Result<Option<FramePlace>, Error>,
    ) -> Result<Settled<Self::Found>, Error>
        ensures settled { SettlesFrom nothing ask Finds Refuses number frames result }
        ensures memory { frames ≡ Err Memory → result ≡ Err Memory };

    ghost ends: { EndsSearch is_something nothing Finds Refuses };
}

// The search for the frames of an address. What refuses those of a unit refuses the search.
pub(crate) struct FrameSearch;

impl AddressSearch for FrameSearch {
    ghost use Rattle.std.specs.Prelude.{List, [], Result, Ok, refl};
    ghost use Rattle.addr2line_unit.specs.Error.{Error};
    ghost use Rattle.addr2line_unit.specs.Frames.{Frame};
    ghost use Rattle.addr2line_unit.specs.Lookups.{is_answer};
    ghost use Rattle.addr2line_lookups.specs.FramePlaces.{frames_of_answered};
    ghost use Rattle.addr2line_lookups.specs.UnitLookups.{FoundFrames, RefusesFrames, some_answer};

    type Found = FramePlace;

    ghost Answer = { Result (List Frame) Error };

    ghost is_something = { is_answer };

    ghost nothing = { Ok [] };

    ghost ask = { frames_of_answered };

    ghost Finds = { λ vs us. FoundFrames us };

    ghost Refuses = { RefusesFrames };

    fn settle(
        _number: usize,
        frames: Result<Option<FramePlace>, Error>,
    ) -> Result<Settled<FramePlace>, Error> {
        match frames {
            Ok(found) => match found {
                Some(place) => Ok(Settled::Found(place)),
                None => Ok(Settled::Nothing),
            },
            Err(error) => Err(error),
        }
    }

    ghost ends = { record {
      none = refl;
      found = λ vs us m p h. (h.answer, h.is_found, some_answer h.answer h.holds.has_some);
      refused = λ m e h other. (Err e, h other, refl);
      same = λ m n e same h other. same (Err e) (h other) refl;
    } };
}

// The search for the unit of an address. A unit whose frames are refused has none.
pub(crate) struct UnitSearch;

impl AddressSearch for UnitSearch {
    ghost use Rattle.std.specs.Prelude.{◌≡◌, Option, None, refl};
    ghost use Rattle.addr2line_unit.specs.Error.TheVariants.{Memory};
    ghost use Rattle.addr2line_unit.specs.Lookups.{is_there};
    ghost use Rattle.addr2line_unit.specs.UnitFacts.{UnitInFile};
    ghost use Rattle.addr2line_lookups.specs.UnitLookups.{unit_of_answered, unit_at_number, FoundUnit};

    type Found = usize;

    ghost Answer = { Option UnitInFile };

    ghost is_something = { is_there };

    ghost nothing = { None };

    ghost ask = { unit_of_answered };

    ghost Finds = { FoundUnit };

    ghost Refuses = { λ m e. e ≡ Memory };

    fn settle(
        number: usize,
        frames: Result<Option<FramePlace>, Error>,
    ) -> Result<Settled<usize>, Error> {
        match frames {
            Ok(found) => match found {
                Some(_place) => Ok(Settled::Found(number)),
                None => Ok(Settled::Nothing),
            },
            Err(error) => match error {
                Error::Memory => Err(Error::Memory),
                _ => Ok(Settled::Nothing),
            },
        }
    }

    ghost ends = { record {
      none = refl;
      found = λ vs us m n h. (unit_at_number vs n, h.is_found, h.is_one);
      refused = λ m e h other. absurd (other h);
      same = λ m n e same h. h;
    } };
}
