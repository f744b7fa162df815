//! What the answer to a load makes of its unit (DWARF 5, 3.1.3).

ghost use Rattle.std.specs.Prelude.{option_map};
ghost use Rattle.addr2line_functions.specs.Calls.{ReturnsOrNoMemory};
ghost use Rattle.addr2line_functions.specs.FirstAnswers.{split_unit, first_unit, answer_of};
ghost use Rattle.addr2line_unit.specs.ContextUnits.{first_header};

use addr2line_functions::{Dwarf, Error, Reader, Unit, UnitHeader};
use addr2line_root::OwnedUnit;
use std::alloc::Global;
use std::rc::Rc;

// The unit of a header of the other file, with what the main file's unit alone names.
fn split_unit<R: Reader>(
    alloc: Global,
    main: &Unit<R>,
    file: Rc<Dwarf<R>>,
    header: UnitHeader<R>,
) -> Result<OwnedUnit<R>, Error>
    ensures { ReturnsOrNoMemory result (split_unit main.now file.value.file header) }
{
    let mut unit = file.as_ref().unit(alloc, header)?;
    unit.copy_relocated_attributes(main);
    OwnedUnit::new(alloc, file, unit)
}

/// The first header of a file, if it has one.
pub fn first_header<R: Reader>(file: &Dwarf<R>) -> Result<Option<UnitHeader<R>>, Error>
    ensures { ReturnsOrNoMemory result (first_header file.now.file) }
{
    let mut headers = file.units()?;
    headers.next()
}

// The first unit of the other file, if it has one.
fn first_unit<R: Reader>(
    alloc: Global,
    main: &Unit<R>,
    file: Rc<Dwarf<R>>,
) -> Result<Option<OwnedUnit<R>>, Error>
    ensures { ReturnsOrNoMemory result (first_unit main.now file.value.file) }
{
    match first_header(file.as_ref())? {
        Some(header) => Ok(Some(split_unit(alloc, main, file, header)?)),
        None => Ok(None),
    }
}

/// What another file makes of a unit: its split unit, the first of that file; none where there is
/// no file, or it has no unit. Refused by that unit's header or its facts.
pub fn answer_of<R: Reader>(
    alloc: Global,
    main: &Unit<R>,
    file: Option<Rc<Dwarf<R>>>,
) -> Result<Option<OwnedUnit<R>>, Error>
    ensures { ReturnsOrNoMemory result (answer_of main.now (option_map (λ f. f.value.file) file)) }
{
    match file {
        Some(file) => first_unit(alloc, main, file),
        None => Ok(None),
    }
}
