//! A unit with the sections of its file.

ghost use Rattle.std.specs.Prelude.{◌≡◌, Ok, OnOk, OnErr, IfErr};
ghost use Rattle.addr2line_ranges.specs.Calls.{ReturnsOrNoMemory};
ghost use Rattle.addr2line_ranges.specs.Error.TheVariants.{Memory};
ghost use Rattle.addr2line_ranges.specs.UnitFacts.{in_file};
ghost use Rattle.gimli_dwarf.specs.WholeUnits.{IsBareIn, whole_unit};

use addr2line_ranges::{Dwarf, Error, Reader, Unit, UnitRef};
use std::alloc::Global;
use std::marker::Model;
use std::rc::Rc;

/// A unit, and the sections of its file, which it shares with the other units. The unit has a place
/// of its own on the heap, so that moving what holds it doesn't copy its facts.
pub struct OwnedUnit<R: Reader> {
    sections: Rc<Dwarf<R>>,
    unit: Box<Unit<R>>,
}

impl<R: Reader> Drop for OwnedUnit<R> {
    fn drop(self) {
        let OwnedUnit {
            sections: _,
            unit: _,
        } = self;
    }
}

impl<R: Reader> Model for OwnedUnit<R> {
    ghost use Rattle.addr2line_ranges.specs.UnitFacts.{UnitInFile};

    ghost Value = { UnitInFile };

    ghost view = { λ u. record { file = u.sections.value.file; facts = u.unit.value } };
}

impl<R: Reader> OwnedUnit<R> {
    /// A unit of a file of these sections. The only refusal is out of memory.
    pub fn new(alloc: Global, sections: Rc<Dwarf<R>>, unit: Unit<R>) -> Result<Self, Error>
        ensures { ReturnsOrNoMemory result (Ok (in_file sections.value.file unit)) }
    {
        match Box::new(alloc, unit) {
            Ok(unit) => Ok(OwnedUnit { sections, unit }),
            Err(_) => Err(Error::Memory),
        }
    }

    /// The sections of its file.
    pub fn sections(&self) -> &Rc<Dwarf<R>>
        ensures { result.now.value.file ≡ self.now.file }
    {
        &self.sections
    }

    /// The unit, with the facts of its root.
    pub fn unit(&self) -> &Unit<R>
        ensures { result.now ≡ self.now.facts }
    {
        self.unit.as_ref()
    }

    // Makes a bare unit whole. The only refusal is out of memory, and then it is bare still.
    pub(crate) fn make_whole(&mut self, alloc: Global) -> Result<(), Error>
        requires { IsBareIn self.old.file self.old.facts }
        ensures ok { OnOk result (self.new ≡ whole_unit self.old) }
        ensures err { OnErr result (self.new ≡ self.old) }
        ensures refusal { IfErr result (λ e. e ≡ Memory) }
    {
        let sections = self.sections.as_ref();
        let unit = self.unit.as_mut();
        unit.make_whole(alloc, sections)
    }

    /// The same, borrowed.
    pub fn unit_ref(&self) -> UnitRef<'_, R>
        ensures { result ≡ self.now }
    {
        UnitRef::new(self.sections.as_ref(), self.unit.as_ref())
    }
}
