//! The first rule that a table's units break.

ghost use Rattle.std.specs.Prelude.{◌≡◌, find, map};
ghost use Rattle.linemap_check.specs.UnitRules.{unit_breaks};
ghost use Rattle.linemap_meaning.specs.Conditions.{breaks, first_broken};
ghost use Rattle.linemap_meaning.specs.TableViews.{unit_part};

use crate::functions::{has_call_outside, has_calls_overlap, has_deep_calls};
use crate::overlaps::any_overlap;
use crate::sequences::{any_bad_discriminator, any_bad_rows};
use crate::units;
use crate::units::{EmptyRange, NoRange, any_ranges};
use linemap_meaning::is_rooted;
use linemap_meaning::rule::Rule;
use linemap_meaning::table::TableUnit;

// The rules in the order in which they are tried. Nesting is tried first: the tests of the others
// call themselves for the calls inlined into a call.
const RULES: [Rule; 17] = [
    Rule::Nesting,
    Rule::EmptyRange,
    Rule::Bounds,
    Rule::NoRange,
    Rule::UnitsOverlap,
    Rule::FunctionOutside,
    Rule::FunctionsOverlap,
    Rule::CallOutside,
    Rule::CallsOverlap,
    Rule::SequenceOutside,
    Rule::SequencesOverlap,
    Rule::Rows,
    Rule::LineOrColumn,
    Rule::FileNumber,
    Rule::Text,
    Rule::NotRooted,
    Rule::Discriminator,
];

/// The first rule that the units break: `Nesting`, or else the lowest. It takes no memory, and one
/// pass for each rule over units whose ranges ascend; its stack grows with the depth of calls no
/// further than that rule allows.
pub fn first_broken(units: &[TableUnit]) -> Option<Rule>
    ensures { result ≡ first_broken (map unit_part units.now) }
{
    first_of(&RULES, units)
}

// The first of the rules that the units break.
fn first_of(rules: &[Rule], units: &[TableUnit]) -> Option<Rule>
    ensures { result ≡ find (breaks (map unit_part units.now)) rules.now }
{
    for rule in rules {
        if breaks(units, *rule) {
            return Some(*rule);
        }
    }
    None
}

/// Whether the units break the rule.
pub fn breaks(units: &[TableUnit], rule: Rule) -> bool
    ensures { result ≡ breaks (map unit_part units.now) rule }
{
    if let Rule::UnitsOverlap = rule {
        return any_overlap(units);
    }
    units.iter().any(|unit| unit_breaks(unit, rule))
}

// Whether the unit breaks the rule by itself.
fn unit_breaks(unit: &TableUnit, rule: Rule) -> bool
    ensures { result ≡ unit_breaks rule (unit_part unit.now) }
{
    match rule {
        Rule::EmptyRange => any_ranges(&EmptyRange, unit),
        Rule::Bounds => units::has_out_of_bounds(unit),
        Rule::NoRange => any_ranges(&NoRange, unit),
        Rule::UnitsOverlap => false,
        Rule::FunctionOutside => units::has_function_outside(unit),
        Rule::FunctionsOverlap => units::has_functions_overlap(unit),
        Rule::CallOutside => has_call_outside(&unit.functions),
        Rule::CallsOverlap => has_calls_overlap(&unit.functions),
        Rule::SequenceOutside => units::has_sequence_outside(unit),
        Rule::SequencesOverlap => units::has_sequences_overlap(unit),
        Rule::Rows => any_bad_rows(&unit.sequences),
        Rule::LineOrColumn => units::has_bad_line_or_column(unit),
        Rule::FileNumber => units::has_bad_file_number(unit),
        Rule::Text => units::has_bad_text(unit),
        Rule::NotRooted => !is_rooted(&unit.directory),
        Rule::Nesting => has_deep_calls(&unit.functions),
        Rule::Discriminator => any_bad_discriminator(&unit.sequences),
    }
}
