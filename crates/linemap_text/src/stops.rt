//! Why the answers stop, and how the program reports it.
ghost use Rattle.std.specs.Prelude.{◌≡◌, true};
ghost use Rattle.linemap_output.specs.ErrorLine.{Fails};
ghost use Rattle.linemap_text.specs.Ask.{memory_line};

use linemap_emit::{EmitError, TableError};
use linemap_output::{
    Ended, WriteFault, emission_out_of_memory, fail, out_of_memory, output_failed,
    table_out_of_memory, table_refused, table_too_large,
};
use std::alloc::AllocError;
use std::io::Write;

/// What memory is taken for.
#[derive(Clone, Copy, Debug, PartialEq, Eq)]
pub enum MemoryUse {
    /// The units of a table.
    Table,
    /// The sections that are emitted of a table.
    Emission,
    /// The context over these sections.
    Context,
    /// The lines that answer words.
    Answers,
}

/// Why the answers stop before their end.
#[derive(Clone, Copy, Debug, PartialEq, Eq)]
pub enum Stop {
    /// Out of memory.
    Memory(MemoryUse),
    /// The text is not a table.
    Table(TableError),
    /// The weight of the table is too large.
    TooLarge,
    /// The answers can't be written.
    Output(WriteFault),
}

impl From<AllocError> for Stop {
    ghost use Rattle.linemap_text.specs.declared.stops.MemoryUse.TheVariants.{Answers};
    ghost use Rattle.linemap_text.specs.declared.stops.Stop.TheVariants.{Memory};

    ghost from_gives = { λ _ stop. stop ≡ Memory Answers };

    fn from(_error: AllocError) -> Stop {
        Stop::Memory(MemoryUse::Answers)
    }
}

impl From<WriteFault> for Stop {
    ghost use Rattle.linemap_text.specs.declared.stops.Stop.TheVariants.{Output};

    ghost from_gives = { λ fault stop. stop ≡ Output fault };

    fn from(fault: WriteFault) -> Stop {
        Stop::Output(fault)
    }
}

impl From<TableError> for Stop {
    ghost use Rattle.linemap_text.specs.Ask.{table_stop};

    ghost from_gives = { λ error stop. stop ≡ table_stop error };

    fn from(error: TableError) -> Stop {
        match error {
            TableError::Memory => Stop::Memory(MemoryUse::Table),
            _ => Stop::Table(error),
        }
    }
}

impl From<EmitError> for Stop {
    ghost use Rattle.linemap_text.specs.Ask.{emission_stop};

    ghost from_gives = { λ error stop. stop ≡ emission_stop error };

    fn from(error: EmitError) -> Stop {
        match error {
            EmitError::Memory => Stop::Memory(MemoryUse::Emission),
            EmitError::TooLarge => Stop::TooLarge,
        }
    }
}

impl MemoryUse {
    // Writes the error line of memory that was refused for this. A fault of the error stream only
    // sets a flag.
    fn report<W: Write>(self, err: &mut W) -> Ended
        ensures line { Fails (memory_line self) (W.contents err.old) (W.contents err.new) result }
        ensures memory { result.memory ≡ true }
    {
        match self {
            MemoryUse::Table => table_out_of_memory(err),
            MemoryUse::Emission => emission_out_of_memory(err),
            MemoryUse::Context => fail(
                err,
                "failed to load debug info: ",
                "E1",
            ).with_memory_refused(),
            MemoryUse::Answers => out_of_memory(err),
        }
    }
}

impl Stop {
    ghost use Rattle.linemap_text.specs.Ask.{Reports};

    /// Writes the error line, if there is one. A fault of the error stream only sets a flag.
    pub fn report<W: Write>(self, err: &mut W) -> Ended
        ensures { Reports self (W.contents err.old) (W.contents err.new) result }
    {
        match self {
            Stop::Memory(memory) => memory.report(err),
            Stop::Table(error) => table_refused(err, error.code()),
            Stop::TooLarge => table_too_large(err),
            Stop::Output(fault) => output_failed(err, fault),
        }
    }
}
