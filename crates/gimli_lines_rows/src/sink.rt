//! What takes the rows of a program.

ghost use Rattle.std.specs.Prelude.{◌≡◌, ◌∷◌, [], List, OnOk, OnErr, IfErr};
ghost use Rattle.gimli_lines_machine.specs.Error.TheVariants.{Memory};
ghost use Rattle.gimli_lines_machine.specs.declared.registers.Registers.{Registers};
ghost use Rattle.gimli_lines_rows.specs.RowSinks.{Takes};

use crate::row::LineRow;
use gimli_lines_machine::Error;

/// Takes the rows of a program, one after the other.
pub trait RowSink {
    /// A row in the form in which the sink keeps it.
    ghost Kept: { Type 0 };

    /// That form of a row.
    ghost form: { Registers → Kept };

    /// The sink has taken these rows, and no others, in this order. What it keeps need not tell
    /// them.
    ghost HasTaken: { Self → List Kept → Type 0 };

    /// Takes the next row. Refused when out of memory alone, and then it has taken no more.
    fn take(&mut self, row: &LineRow) -> Result<(), Error>
        ensures ok { OnOk result (Takes HasTaken self.old self.new (form row.now ∷ [])) }
        ensures err { OnErr result ((rows : List Kept) → HasTaken self.old rows
            → HasTaken self.new rows) }
        ensures refusal { IfErr result (λ e. e ≡ Memory) };
}
