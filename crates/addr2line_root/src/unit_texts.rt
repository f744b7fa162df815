//! The texts that a unit says of itself: its directory and its name.

ghost use Rattle.std.specs.Prelude.{◌≡◌, true, Ok, option_map};
ghost use Rattle.addr2line_ranges.specs.Calls.{ReturnsAsOrNoMemory, ReturnsOrNoMemory};
ghost use Rattle.addr2line_ranges.specs.FileTexts.{bytes_of};
ghost use Rattle.addr2line_root.specs.LastPrograms.{unit_texts};

use addr2line_ranges::{Error, Reader, UnitRef};
use std::marker::Model;

/// The directory and the name of a unit, which the texts of its files depend on (DWARF 4, 6.2.4).
#[derive(Drop)]
pub struct UnitTexts<R: Reader> {
    directory: Option<R>,
    name: Option<R>,
}

impl<R: Reader> Model for UnitTexts<R> {
    ghost use Rattle.std.specs.Prelude.{option_map};
    ghost use Rattle.addr2line_ranges.specs.FileTexts.{bytes_of};
    ghost use Rattle.addr2line_root.specs.LastPrograms.{UnitTexts as Texts};

    ghost Value = { Texts };

    ghost view = { λ t. record {
      directory = option_map bytes_of (option_map R.view t.directory);
      name = option_map bytes_of (option_map R.view t.name);
    } };
}

/// A copy of a reader, if there is one.
pub fn copy_of<R: Reader>(reader: &Option<R>) -> Result<Option<R>, Error>
    ensures { ReturnsAsOrNoMemory (option_map R.view) result (Ok (option_map R.view reader.now)) }
{
    match reader {
        Some(reader) => Ok(Some(reader.copy()?)),
        None => Ok(None),
    }
}

// Whether two texts are the same bytes, or both are missing.
fn are_same<R: Reader>(text: &Option<R>, other: &Option<R>) -> bool
    ensures { result ≡ true → option_map bytes_of (option_map R.view text.now)
        ≡ option_map bytes_of (option_map R.view other.now) }
{
    match (text, other) {
        (Some(text), Some(other)) => text.as_bytes() == other.as_bytes(),
        (None, None) => true,
        _ => false,
    }
}

impl<R: Reader> UnitTexts<R> {
    // Those of a unit. The only refusal is out of memory.
    pub(crate) fn of_unit(unit: &UnitRef<'_, R>) -> Result<Self, Error>
        ensures { ReturnsOrNoMemory result (Ok (unit_texts unit.now.facts)) }
    {
        let unit = unit.unit;
        Ok(UnitTexts {
            directory: copy_of(&unit.comp_dir)?,
            name: copy_of(&unit.name)?,
        })
    }

    // Whether a unit has the same.
    pub(crate) fn are_of(&self, unit: &UnitRef<'_, R>) -> bool
        ensures { result ≡ true → self.now ≡ unit_texts unit.now.facts }
    {
        let unit = unit.unit;
        are_same(&self.directory, &unit.comp_dir) && are_same(&self.name, &unit.name)
    }
}
