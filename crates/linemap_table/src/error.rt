//! Why a table is refused.

use crate::fault::Fault;
use linemap_check::Rule;
use std::error::Error;
use std::fmt;

/// Why a table is refused. It prints as a letter and a number; of several broken rules B19 is
/// reported, or else the one with the lowest number.
#[derive(Debug, Clone, Copy, PartialEq, Eq)]
pub enum TableError {
    /// B1: out of memory.
    Memory,
    /// B2: the bytes aren't UTF-8, or not JSON that `serde_json` reads.
    Json,
    /// B3: a key is missing or unknown, or a value isn't of its kind; a number must be one that
    /// `serde_json` reads as a `u64`.
    Shape,
    /// B4: a range ends at or below its begin.
    EmptyRange,
    /// B5: the begin or end of a range, the address of a row or the end of a sequence is not within
    /// 1 to 2^64 - 3.
    Bounds,
    /// B6: a unit, function or call has no range.
    NoRange,
    /// B7: two ranges of units share an address.
    UnitsOverlap,
    /// B8: a function's range lies in no single range of its unit.
    FunctionOutside,
    /// B9: two ranges of functions of one unit share an address.
    FunctionsOverlap,
    /// B10: a call's range lies in no single range of the function or call that it is in.
    CallOutside,
    /// B11: two ranges of calls in the same function or call share an address.
    CallsOverlap,
    /// B12: the addresses of a sequence lie in no single range of its unit.
    SequenceOutside,
    /// B13: two sequences of one unit share an address.
    SequencesOverlap,
    /// B14: a sequence has no rows, or rows that go back, or one that is not below its end.
    Rows,
    /// B15: a line or column, of a row or a call, is not within 1 to 2^32 - 1.
    LineOrColumn,
    /// B16: a row or a call names a file that its unit doesn't have.
    FileNumber,
    /// B17: a directory or name is empty or has a zero byte.
    Text,
    /// B18: a unit's directory has no root, so that a join would append it.
    NotRooted,
    /// B19: calls are nested more than 50 deep.
    Nesting,
    /// B20: a row's discriminator is above 2^32 - 1.
    Discriminator,
}

impl TableError {
    ghost use Rattle.std.specs.Prelude.{◌≡◌};
    ghost use Rattle.linemap_table.specs.TableErrorCodes.{table_error_code};

    /// The letter and number that are printed.
    pub fn code(self) -> &'static str
        ensures { result.now ≡ table_error_code self }
    {
        match self {
            TableError::Memory => "B1",
            TableError::Json => "B2",
            TableError::Shape => "B3",
            TableError::EmptyRange => "B4",
            TableError::Bounds => "B5",
            TableError::NoRange => "B6",
            TableError::UnitsOverlap => "B7",
            TableError::FunctionOutside => "B8",
            TableError::FunctionsOverlap => "B9",
            TableError::CallOutside => "B10",
            TableError::CallsOverlap => "B11",
            TableError::SequenceOutside => "B12",
            TableError::SequencesOverlap => "B13",
            TableError::Rows => "B14",
            TableError::LineOrColumn => "B15",
            TableError::FileNumber => "B16",
            TableError::Text => "B17",
            TableError::NotRooted => "B18",
            TableError::Nesting => "B19",
            TableError::Discriminator => "B20",
        }
    }
}

impl fmt::Display for TableError {
    ghost use Rattle.std.specs.Prelude.{Some};
    ghost use Rattle.linemap_table.specs.TableErrorCodes.{table_error_code};

    ghost output = { λ e. Some (table_error_code e) };

    fn fmt<W: fmt::Write>(&self, f: &mut fmt::Formatter<W>) -> fmt::Result {
        f.write_str(self.code())
    }
}

impl Error for TableError {}

impl From<Rule> for TableError {
    ghost use Rattle.std.specs.Prelude.{◌≡◌};
    ghost use Rattle.linemap_table.specs.TableErrorCodes.{refusal_of};

    ghost from_gives = { λ rule e. e ≡ refusal_of rule };

    fn from(rule: Rule) -> TableError {
        match rule {
            Rule::EmptyRange => TableError::EmptyRange,
            Rule::Bounds => TableError::Bounds,
            Rule::NoRange => TableError::NoRange,
            Rule::UnitsOverlap => TableError::UnitsOverlap,
            Rule::FunctionOutside => TableError::FunctionOutside,
            Rule::FunctionsOverlap => TableError::FunctionsOverlap,
            Rule::CallOutside => TableError::CallOutside,
            Rule::CallsOverlap => TableError::CallsOverlap,
            Rule::SequenceOutside => TableError::SequenceOutside,
            Rule::SequencesOverlap => TableError::SequencesOverlap,
            Rule::Rows => TableError::Rows,
            Rule::LineOrColumn => TableError::LineOrColumn,
            Rule::FileNumber => TableError::FileNumber,
            Rule::Text => TableError::Text,
            Rule::NotRooted => TableError::NotRooted,
            Rule::Nesting => TableError::Nesting,
            Rule::Discriminator => TableError::Discriminator,
        }
    }
}

impl From<Fault> for TableError {
    ghost use Rattle.linemap_table.specs.ShapeFaults.{error_of};
    ghost use Rattle.std.specs.Prelude.{◌≡◌};

    ghost from_gives = { λ fault e. e ≡ error_of fault };

    fn from(fault: Fault) -> TableError {
        match fault {
            Fault::Memory => TableError::Memory,
            Fault::Shape => TableError::Shape,
        }
    }
}
