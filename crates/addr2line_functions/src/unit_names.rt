//! The names of a unit's functions and calls, wherever they are.

ghost use Rattle.std.specs.Prelude.{◌≡◌, false, option_map};
ghost use Rattle.addr2line_functions.specs.NamingUnits.{PassesName};
ghost use Rattle.gimli_units_entries.specs.Calls.{ReturnsAsOrNoMemory};
ghost use Rattle.gimli_units_entries.specs.AttributeValues.{raw_attribute_of};
ghost use Rattle.addr2line_functions.specs.ContextNames.{naming_from};

use crate::Names;
use addr2line_names::{HasUnit, HoldingUnit, KnownUnits, is_naming};
use gimli_units_entries::{Attribute, DwAt, Error, Reader};
use std::marker::Model;

/// What finds the names of a unit's functions and calls: the unit, and the units that references
/// from it may lead to.
#[derive(Drop)]
pub struct UnitNames<'a, R: Reader, U: HasUnit<R>> {
    /// The units that references may lead to.
    pub known: KnownUnits<'a, R, U>,
    /// The unit itself.
    pub holder: HoldingUnit<'a, R>,
}

impl<'a, R: Reader, U: HasUnit<R>> Model for UnitNames<'a, R, U> {
    ghost use Rattle.addr2line_functions.specs.NamingUnits.{UnitNaming};

    ghost Value = { UnitNaming };

    ghost view = { λ n. record { known = n.known; holder = n.holder } };
}

impl<'a, R: Reader, U: HasUnit<R>> Names<R> for UnitNames<'a, R, U> {
    ghost naming = { λ n. naming_from n.known n.holder };

    #[inline(always)]
    fn is_naming(&self, name: DwAt) -> bool
        ensures { (result ≡ false)
            → PassesName (naming_from self.now.known self.now.holder) name.0 }
    {
        is_naming(name)
    }

    fn name_with(&self, found: Option<R>, attribute: &Attribute<R>) -> Result<Option<R>, Error>
        ensures { ReturnsAsOrNoMemory (option_map R.view) result
            (naming_from self.now.known self.now.holder
            (option_map R.view found) (raw_attribute_of R.view R.Offset.count attribute.now)) }
    {
        self.known.name_with(&self.holder, found, attribute)
    }
}
