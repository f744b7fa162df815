//! Places that can follow a row.

ghost use Rattle.std.specs.Prelude.{◌≡◌};
ghost use Rattle.gimli_lines_write_rows.specs.BuiltRows.{can_place, can_show};
ghost use Rattle.gimli_lines_write_rows.specs.RowPieces.{IsBuildable};

use crate::row::LineRow;
use gimli_lines_machine::LineRules;

/// Whether a place can follow a row.
pub fn can_place(rules: LineRules, previous: &LineRow, offset: u64, op_index: u64) -> bool
    requires { IsBuildable rules }
    ensures { result ≡ can_place rules previous.now offset op_index }
{
    let length = u64::from(rules.line_encoding.minimum_instruction_length);
    let most = u64::from(rules.line_encoding.maximum_operations_per_instruction);
    if offset < previous.address_offset || offset % length != 0 || op_index >= most {
        return false;
    }
    let instructions = (offset - previous.address_offset) / length;
    let operations = u128::from(instructions) * u128::from(most) + u128::from(op_index);
    u128::from(previous.op_index) <= operations && operations < 1 << 64
}

/// Whether a row's line is one of those that can be written.
#[tactic(auto, unfolding(crate::specs::BuiltRows::are_words))]
pub fn can_show(row: LineRow) -> bool
    ensures { result ≡ can_show row }
{
    row.line < 1 << 63
}
