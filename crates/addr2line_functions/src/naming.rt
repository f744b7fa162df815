//! Finding the names of functions and calls.

ghost use Rattle.std.specs.Prelude.{◌≡◌, false, None, option_map};
ghost use Rattle.gimli_units_entries.specs.Calls.{ReturnsAsOrNoMemory};
ghost use Rattle.gimli_units_entries.specs.AttributeValues.{raw_attribute_of};
ghost use Rattle.gimli_units_entries.specs.EntryViews.{raw_attributes};
ghost use Rattle.addr2line_ranges.specs.InlinedCalls.{Naming, name_by};
ghost use Rattle.addr2line_functions.specs.NamingUnits.{PassesName};

use gimli_units_entries::{Attribute, DwAt, Error, Reader};

/// What finds the name of an entry of one unit, one attribute after the other. A name may be that
/// of another entry, also of another unit, which a reference leads to; so it knows the units that
/// these references reach.
pub trait Names<R: Reader> {
    /// How it finds names.
    ghost naming: { Self → Naming };

    /// Whether names may be made of attributes of a name.
    fn is_naming(&self, name: DwAt) -> bool
        ensures { (result ≡ false) → PassesName (naming self.now) name.0 };

    /// The name of an entry by those attributes which gave this one, or none, and one more; or why
    /// a reference can't be followed.
    fn name_with(&self, found: Option<R>, attribute: &Attribute<R>) -> Result<Option<R>, Error>
        ensures { ReturnsAsOrNoMemory (option_map R.view) result
            (naming self.now (option_map R.view found)
            (raw_attribute_of R.view R.Offset.count attribute.now)) };
}

// Takes a further attribute of an entry into its name, which stays where no name is made of the
// attribute.
#[inline(always)]
pub(crate) fn take_name<R: Reader, N: Names<R>>(
    name: &mut Option<R>,
    names: &N,
    attribute: &Attribute<R>,
) -> Result<(), Error>
    ensures { ReturnsAsOrNoMemory (λ _. option_map R.view name.new) result
        (N.naming names.now (option_map R.view name.old)
        (raw_attribute_of R.view R.Offset.count attribute.now)) }
{
    if !names.is_naming(attribute.name()) {
        return Ok(());
    }
    *name = names.name_with(name.take(), attribute)?;
    Ok(())
}

// The name of an entry with these attributes, if they have one, or the first refusal.
pub(crate) fn name_by<R: Reader, N: Names<R>>(
    names: &N,
    attributes: &[Attribute<R>],
) -> Result<Option<R>, Error>
    ensures { ReturnsAsOrNoMemory (option_map R.view) result
        (name_by (N.naming names.now) None
        (raw_attributes R.view R.Offset.count attributes.now)) }
{
    let mut found = None;
    for attribute in attributes {
        take_name(&mut found, names, attribute)?;
    }
    Ok(found)
}
