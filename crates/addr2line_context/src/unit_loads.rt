//! The unit of an address, for a crate that answers itself the loads that it waits for: one search
//! decides it, and lends nothing; then it is lent from the context.

ghost use Rattle.std.specs.Prelude.{◌≡◌, ◌≢◌, Option, Err};
ghost use Rattle.addr2line_lookups.specs.Error.TheVariants.{Memory};
ghost use Rattle.addr2line_lookups.specs.FirstAnswers.{Lookup, output};
ghost use Rattle.addr2line_lookups.specs.UnitFacts.{UnitInFile};
ghost use Rattle.addr2line_context.specs.ContextCosts.{unit_search, AfterSearch};
ghost use Rattle.addr2line_context.specs.FrameLoads.{DecidesUnlessWaiting, DecidesUnit};
ghost use Rattle.addr2line_context.specs.SettledLookups.{unit_in};

use crate::context::Context;
use addr2line_lookups::{Error, Reader, Settled, UnitRef};

/// The unit of an address that waits for no load, in the context that was asked.
#[derive(Drop)]
pub enum DecidedUnit {
    /// It has a number.
    Number(usize),
    /// There is none.
    NoUnit,
}

/// Decides the unit of an address, unless it waits for a load. What is read on the way is kept. The
/// only error is out of memory.
pub fn settle_unit<R: Reader>(
    context: &mut Context<R>,
    probe: u64,
) -> Result<Option<DecidedUnit>, Error>
    ensures after { AfterSearch unit_search (result ≢ Err Memory) probe context.old context.new }
    ensures settles { DecidesUnlessWaiting (DecidesUnit context.new.units)
        (unit_in context.old.value probe) result }
{
    match context.settle_unit(probe) {
        Ok(Settled::Waits) => Ok(None),
        Ok(Settled::Nothing) => Ok(Some(DecidedUnit::NoUnit)),
        Ok(Settled::Found(number)) => Ok(Some(DecidedUnit::Number(number))),
        Err(error) => Err(error),
    }
}

/// A decided unit, with its file's sections, as `Context::find_dwarf_and_unit` finds it, lent from
/// the context that decided it.
pub fn lend_unit<R: Reader>(context: &Context<R>, decided: DecidedUnit) -> Option<UnitRef<'_, R>>
    requires { (meaning : Lookup (Option UnitInFile))
        × DecidesUnit context.now.units meaning decided }
    ensures { (meaning : Lookup (Option UnitInFile))
        → DecidesUnit context.now.units meaning decided → meaning ≡ output result }
{
    match decided {
        DecidedUnit::Number(number) => context.units.functions_unit_at(number),
        DecidedUnit::NoUnit => None,
    }
}
