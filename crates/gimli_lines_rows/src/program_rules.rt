//! What the instructions of a program depend on, and what its special opcodes add.

ghost use Rattle.std.specs.Prelude.{◌≡◌};
ghost use Rattle.gimli_lines_machine.specs.Machine.{IsSound, operation_advance, line_advance};
ghost use Rattle.gimli_lines_rows.specs.ProgramInstructions.{rules_of};

use crate::execution::rules_of;
use gimli_lines_header::LineProgramHeader;
use gimli_lines_machine::{LineRules, Reader};
use std::marker::Model;

// The rules of a program's header, and what each special opcode adds by them, which takes two
// divisions: it is computed once for each program.
#[derive(Drop)]
pub(crate) struct ProgramRules {
    rules: LineRules,
    // By opcodes: how many operations each adds, and how many lines above `line_base`.
    operations: [u8; 256],
    lines: [u8; 256],
}

impl Model for ProgramRules {
    ghost use Rattle.gimli_lines_machine.specs.declared.rules.LineRules.{LineRules};
    ghost use Rattle.gimli_lines_rows.specs.SpecialOpcodes.{HasAdvances};

    ghost Value = { LineRules };

    ghost view = { λ p. p.rules };

    ghost invariant = { λ p. HasAdvances p.rules p.operations p.lines };
}

impl ProgramRules {
    // The rules of a program.
    pub(crate) fn of<R: Reader>(header: &LineProgramHeader<R>) -> Self
        ensures { result ≡ rules_of header.now }
    {
        let rules = rules_of(header);
        let mut operations = [0; 256];
        let mut lines = [0; 256];
        for opcode in 0..256 {
            let adjusted = (opcode as u8).saturating_sub(rules.opcode_base);
            operations[opcode] = adjusted / rules.line_encoding.line_range;
            lines[opcode] = adjusted % rules.line_encoding.line_range;
        }
        ProgramRules {
            rules,
            operations,
            lines,
        }
    }

    // The rules alone.
    #[inline(always)]
    pub(crate) fn line_rules(&self) -> LineRules
        ensures value { result ≡ self.now }
        ensures sound { IsSound result }
    {
        self.rules
    }

    // How many operations an opcode adds.
    #[inline(always)]
    pub(crate) fn operations_of(&self, opcode: u8) -> u64
        ensures { result ≡ operation_advance self.now opcode }
    {
        u64::from(self.operations[usize::from(opcode)])
    }

    // How many lines an opcode adds.
    #[inline(always)]
    pub(crate) fn lines_of(&self, opcode: u8) -> i64
        ensures { result ≡ line_advance self.now opcode }
    {
        i64::from(self.rules.line_encoding.line_base) + i64::from(self.lines[usize::from(opcode)])
    }
}
