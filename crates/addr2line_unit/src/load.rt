//! The files that have the split parts of units (DWARF 5, 3.1.2 and 7.3.2).

ghost use Rattle.std.specs.Prelude.{Ok, option_map};
ghost use Rattle.addr2line_functions.specs.Calls.{ReturnsAs, ReturnsAsOrNoMemory, ReturnsOrNoMemory};
ghost use Rattle.addr2line_functions.specs.FirstAnswers.{split_path, load_of_id, load_of};

use addr2line_functions::{Dwarf, DwoId, Error, Reader, UnitRef, share};
use addr2line_root::{MainUnit, OwnedUnit, copy_of};
use std::alloc::Global;
use std::marker::Model;
use std::rc::Rc;

/// What is asked for: the split part of a unit.
#[derive(Drop)]
pub struct SplitDwarfLoad<R: Reader> {
    /// The identifier that the unit shares with its split part.
    pub dwo_id: DwoId,
    /// The unit's directory, which the name of the other file counts from.
    pub comp_dir: Option<R>,
    /// The name of the other file.
    pub path: Option<R>,
    /// The main file, for `Dwarf::make_dwo`.
    pub parent: Rc<Dwarf<R>>,
}

impl<R: Reader> Model for SplitDwarfLoad<R> {
    ghost use Rattle.std.specs.Prelude.{option_map};
    ghost use Rattle.addr2line_functions.specs.FirstAnswers.{SplitLoad};

    ghost Value = { SplitLoad };

    ghost view = { λ l. record {
      dwo_id = l.dwo_id.0;
      comp_dir = option_map R.view l.comp_dir;
      path = option_map R.view l.path;
      parent = l.parent.value.file;
    } };
}

// The name of the file that has the unit's split part, if its root says one.
fn split_path<R: Reader>(alloc: Global, unit: &UnitRef<'_, R>) -> Result<Option<R>, Error>
    ensures { ReturnsAsOrNoMemory (option_map R.view) result (split_path unit.now) }
{
    // (shows the prover what a unit's model says of its file)
    let _ = &unit.dwarf;
    let facts = unit.unit;
    match facts.dwo_name(alloc)? {
        Some(name) => Ok(Some(unit.attr_string(name)?)),
        None => Ok(None),
    }
}

// The load of a unit with this identifier.
fn load_of_id<R: Reader>(
    alloc: Global,
    unit: &OwnedUnit<R>,
    dwo_id: DwoId,
) -> Result<SplitDwarfLoad<R>, Error>
    ensures { ReturnsOrNoMemory result (load_of_id unit.now dwo_id.0) }
{
    let path = split_path(alloc, &unit.unit_ref())?;
    let facts = unit.unit();
    let comp_dir = copy_of(&facts.comp_dir)?;
    let parent = share(unit.sections())?;
    Ok(SplitDwarfLoad {
        dwo_id,
        comp_dir,
        path,
        parent,
    })
}

/// The load of a unit; none where it has no identifier, and so its functions itself. Refused by the
/// name of the other file. Takes memory for copies of readers.
pub fn load_of<R: Reader>(
    alloc: Global,
    unit: &OwnedUnit<R>,
) -> Result<Option<SplitDwarfLoad<R>>, Error>
    ensures { ReturnsOrNoMemory result (load_of unit.now) }
{
    let facts = unit.unit();
    match facts.dwo_id {
        Some(id) => Ok(Some(load_of_id(alloc, unit, id)?)),
        None => Ok(None),
    }
}

/// The load of a unit, or why it is refused, as the unit keeps it. The load is on the heap, since
/// few units have one.
pub struct KeptLoad<R: Reader> {
    load: Result<Option<Box<SplitDwarfLoad<R>>>, Error>,
}

impl<R: Reader> Drop for KeptLoad<R> {
    fn drop(self) {
        let KeptLoad { load: _ } = self;
    }
}

impl<R: Reader> Model for KeptLoad<R> {
    ghost use Rattle.std.specs.Prelude.{Option, option_map, Result, Ok};
    ghost use Rattle.addr2line_functions.specs.Error.{Error};
    ghost use Rattle.addr2line_functions.specs.Results.{and_then};
    ghost use Rattle.addr2line_functions.specs.FirstAnswers.{SplitLoad};

    ghost Value = { Result (Option SplitLoad) Error };

    ghost view = { λ k. and_then k.load (λ load. Ok (option_map (λ l. l.value) load)) };
}

impl<R: Reader> KeptLoad<R> {
    /// That of a unit; none where it isn't whole. The only refusal is out of memory.
    pub fn read(alloc: Global, unit: &MainUnit<R>) -> Result<Self, Error>
        ensures { ReturnsOrNoMemory result (Ok (load_of unit.now.counted.unit)) }
    {
        let Some(unit) = unit.whole() else {
            return Ok(KeptLoad { load: Ok(None) });
        };
        let load = match load_of(alloc, unit) {
            Ok(Some(load)) => Ok(Some(Box::new(alloc, load)?)),
            Ok(None) => Ok(None),
            Err(Error::Memory) => return Err(Error::Memory),
            Err(fault) => Err(fault),
        };
        Ok(KeptLoad { load })
    }

    /// What is kept.
    pub fn load(&self) -> Result<Option<&SplitDwarfLoad<R>>, Error>
        ensures { ReturnsAs (option_map (λ l. l.now)) result self.now }
    {
        match &self.load {
            Ok(Some(load)) => Ok(Some(load.as_ref())),
            Ok(None) => Ok(None),
            Err(error) => Err(*error),
        }
    }
}
