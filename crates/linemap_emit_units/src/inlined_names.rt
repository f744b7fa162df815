//! The names of the functions that are inlined into those of a unit.

ghost use Rattle.std.specs.Prelude.{◌≡◌, ◌<◌, [], map, length, OnOk, IfOk, IfErr};
ghost use Rattle.gimli_lines_write_tables.specs.StringSections.{IsText, with_text, text_index};
ghost use Rattle.gimli_lines_write_tables.specs.WriteError.TheVariants.{Memory};
ghost use Rattle.linemap_emit_programs.specs.TableViews.{call_part, calls_part, function_part};
ghost use Rattle.linemap_emit_units.specs.InlinedNames.{call_names, called_names, with_texts, NamesAre, FunctionNamesAre, IsAmong};

use gimli_lines_write_tables::{Error, StringTable};
use linemap_emit_programs::{TableCall, TableFunction};
use std::alloc::Global;

// Adds the name of a call.
fn add_name(alloc: Global, names: &mut StringTable, call: &TableCall) -> Result<(), Error>
    requires { IsText (call_part call.now).site.name }
    ensures ok { OnOk result (names.new ≡ with_text names.old (call_part call.now).site.name) }
    ensures refusal { IfErr result (λ e. e ≡ Memory) }
{
    names.add(alloc, call.name.as_bytes())?;
    Ok(())
}

// Adds the names of calls, each before those inlined into it.
#[tactic(auto, unfolding(crate::specs::InlinedNames::NamesAre, crate::specs::InlinedNames::call_names))]
fn add_names(alloc: Global, names: &mut StringTable, calls: &[TableCall]) -> Result<(), Error>
    requires { NamesAre IsText (calls_part calls.now) }
    ensures ok { OnOk result
        (names.new ≡ with_texts names.old (call_names (calls_part calls.now))) }
    ensures refusal { IfErr result (λ e. e ≡ Memory) }
{
    for call in calls {
        add_name(alloc, names, call)?;
        add_names(alloc, names, &call.calls)?;
    }
    Ok(())
}

/// The names of all calls in functions, each once, by first use. Refused only when out of memory.
pub fn names_of(alloc: Global, functions: &[TableFunction]) -> Result<StringTable, Error>
    requires { FunctionNamesAre IsText (map function_part functions.now) }
    ensures ok { IfOk result (λ names. names
        ≡ with_texts [] (called_names (map function_part functions.now))) }
    ensures refusal { IfErr result (λ e. e ≡ Memory) }
{
    let mut names = StringTable::new(alloc);
    for function in functions {
        add_names(alloc, &mut names, &function.calls)?;
    }
    Ok(names)
}

/// The number of a name among those that have it.
#[tactic(auto, using(crate::proofs::EmittedTextLemmas::again_among, crate::proofs::EmittedTextLemmas::place_among))]
pub fn number_of(alloc: Global, names: &mut StringTable, name: &str) -> Result<u64, Error>
    requires text { IsText name.now }
    requires among { IsAmong names.old name.now }
    ensures same { OnOk result (names.new ≡ names.old) }
    ensures number { IfOk result (λ number. number ≡ text_index names.old name.now) }
    ensures low { IfOk result (λ number. number < length names.old) }
    ensures refusal { IfErr result (λ e. e ≡ Memory) }
{
    let id = names.add(alloc, name.as_bytes())?;
    Ok(id.0 as u64)
}
