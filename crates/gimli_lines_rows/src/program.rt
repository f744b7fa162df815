//! Programs whose rows are read.

ghost use Rattle.std.specs.Prelude.{◌≡◌, ◌≢◌, Bool, OnOk, IfOk, IfErr, IsOk, IsTrue, true, false, Ok, Err};
ghost use Rattle.gimli_lines_machine.specs.Calls.{ReturnsOrNoMemory};
ghost use Rattle.gimli_lines_machine.specs.Error.TheVariants.{Memory};
ghost use Rattle.gimli_lines_machine.specs.View.{View};
ghost use Rattle.gimli_lines_machine.specs.NumberParsers.{is_address_size};
ghost use Rattle.gimli_lines_header.specs.LineHeaders.{LineHeader};
ghost use Rattle.gimli_lines_header.specs.HeaderParsing.{line_unit, header_at};
ghost use Rattle.gimli_lines_rows.specs.ProgramRows.{header_with_any, header_with};
ghost use Rattle.gimli_lines_rows.specs.RowSequences.{SequencesOf, program_rows, sequence_rows};

use crate::rows::LineRows;
use crate::sequence::{LineSequence, next_sequence};
use gimli_lines_header::{DebugLine, FileEntry, LineProgramHeader};
use gimli_lines_machine::{DebugLineOffset, Error, Reader};
use std::alloc::Global;
use std::marker::Model;

/// The programs of `.debug_line`.
pub trait LinePrograms<R: Reader> {
    /// The section's bytes.
    ghost section: { Self → View };

    /// The section.
    fn debug_line(&self) -> &DebugLine<R>
        ensures { result.now ≡ section self.now };

    /// The program at an offset. Its unit gives the bytes of an address, which count up to version
    /// 4, its directory and its name.
    final fn program(
        &self,
        alloc: Global,
        offset: DebugLineOffset<R::Offset>,
        address_size: u8,
        comp_dir: Option<R>,
        comp_name: Option<R>,
    ) -> Result<IncompleteLineProgram<R>, Error>
        requires { IsTrue (is_address_size address_size) }
        ensures { ReturnsOrNoMemory result
            (header_at R.Offset.limit (R.Offset.count offset.0)
            (line_unit R.view address_size comp_dir comp_name) (section self.now)) }
    {
        let section = self.debug_line();
        let header = section.header(alloc, offset, address_size, comp_dir, comp_name)?;
        Ok(IncompleteLineProgram::new(header))
    }
}

impl<R: Reader> LinePrograms<R> for DebugLine<R> {
    ghost section = { λ s. s };

    fn debug_line(&self) -> &DebugLine<R> {
        self
    }
}

/// A program whose instructions are executed.
pub trait LineProgram<R: Reader> {
    /// Its header, with the files that were added.
    ghost header_of: { Self → LineHeader };

    /// Whether a file that an instruction defines is added.
    ghost takes_files: { Bool };

    /// The header, with the files that were added.
    fn header(&self) -> &LineProgramHeader<R>
        ensures { result.now ≡ header_of self.now };

    /// Takes a file that an instruction defines out of its place. Refused, the header is unchanged.
    fn take_file(&mut self, file: &mut Option<FileEntry<R>>) -> Result<(), Error>
        ensures ok { OnOk result (header_of self.new ≡ header_with_any takes_files file.old
            (header_of self.old)) }
        ensures err { IfErr result
            (λ e. (e ≡ Memory) × (header_of self.new ≡ header_of self.old)) }
        ensures free { takes_files ≡ false → IsOk result };

    /// Takes a file that an instruction defines. Refused, the header is unchanged.
    final fn add_file(&mut self, file: FileEntry<R>) -> Result<(), Error>
        ensures ok { OnOk result (header_of self.new
            ≡ header_with takes_files file (header_of self.old)) }
        ensures err { IfErr result (λ e. (e ≡ Memory)
            × (header_of self.new ≡ header_of self.old)) }
        ensures free { takes_files ≡ false → IsOk result }
    {
        self.take_file(&mut Some(file))
    }
}

/// A program whose instructions are still to be executed: they may define further files.
pub struct IncompleteLineProgram<R: Reader> {
    header: LineProgramHeader<R>,
}

impl<R: Reader> Drop for IncompleteLineProgram<R> {
    fn drop(self) {
        let IncompleteLineProgram { header: _ } = self;
    }
}

impl<R: Reader> Model for IncompleteLineProgram<R> {
    ghost use Rattle.gimli_lines_header.specs.LineHeaders.{LineHeader};

    ghost Value = { LineHeader };

    ghost view = { λ p. p.header };
}

impl<R: Reader> LineProgram<R> for IncompleteLineProgram<R> {
    ghost header_of = { λ p. p };

    ghost takes_files = { true };

    fn header(&self) -> &LineProgramHeader<R>
        ensures { result.now ≡ self.now }
    {
        &self.header
    }

    fn take_file(&mut self, file: &mut Option<FileEntry<R>>) -> Result<(), Error>
        ensures ok { OnOk result (self.new ≡ header_with_any true file.old self.old) }
        ensures err { IfErr result (λ e. (e ≡ Memory) × (self.new ≡ self.old)) }
    {
        match file.take() {
            Some(file) => self.header.add_file(file),
            None => Ok(()),
        }
    }
}

impl<R: Reader> IncompleteLineProgram<R> {
    /// The program of a header.
    pub fn new(header: LineProgramHeader<R>) -> Self
        ensures { result ≡ header }
    {
        IncompleteLineProgram { header }
    }

    /// The header, with the files that it lists.
    pub fn header(&self) -> &LineProgramHeader<R>
        ensures { result.now ≡ self.now }
    {
        &self.header
    }

    /// The rows, from the first on. Takes memory only where a copy of the reader does.
    pub fn rows(self) -> Result<LineRows<R, IncompleteLineProgram<R>>, Error>
        ensures value { ReturnsOrNoMemory result (Ok (program_rows self)) }
        ensures free { IsTrue R.copies_freely → result ≢ Err Memory }
    {
        LineRows::new(self)
    }
}

impl<R: Reader> IncompleteLineProgram<R> {
    /// The sequences of the program's rows, in order, and the program with all files that its
    /// instructions define. Takes memory for the sequences and for the files.
    pub fn sequences(
        self,
        alloc: Global,
    ) -> Result<(CompleteLineProgram<R>, Vec<LineSequence<R>>), Error>
        ensures { SequencesOf R.Offset.limit (λ p. (p.0, p.1.items)) result self }
    {
        let mut rows = self.rows()?;
        let mut sequences = Vec::new(alloc);
        while let Some(sequence) = next_sequence(&mut rows)? {
            sequences.push(sequence)?;
        }
        Ok((rows.into_program().complete(), sequences))
    }

    // The program, once its instructions were executed.
    fn complete(self) -> CompleteLineProgram<R>
        ensures { result ≡ self }
    {
        let IncompleteLineProgram { header } = self;
        CompleteLineProgram { header }
    }
}

/// A program of a borrowed header. Its rows are read without a copy of the header: the first file
/// that an instruction defines, which few programs have, makes one.
pub struct BorrowedLineProgram<'header, R: Reader> {
    header: &'header LineProgramHeader<R>,
    // The copy, with the files that were added.
    copy: Option<LineProgramHeader<R>>,
}

impl<R: Reader> Drop for BorrowedLineProgram<'_, R> {
    fn drop(self) {
        let BorrowedLineProgram { header: _, copy: _ } = self;
    }
}

impl<'header, R: Reader> Model for BorrowedLineProgram<'header, R> {
    ghost use Rattle.std.specs.Option.{unwrap_or};
    ghost use Rattle.gimli_lines_header.specs.LineHeaders.{LineHeader};

    ghost Value = { LineHeader };

    ghost view = { λ p. unwrap_or p.copy p.header.now };
}

impl<R: Reader> LineProgram<R> for BorrowedLineProgram<'_, R> {
    ghost header_of = { λ p. p };

    ghost takes_files = { true };

    fn header(&self) -> &LineProgramHeader<R> {
        match &self.copy {
            Some(header) => header,
            None => self.header,
        }
    }

    fn take_file(&mut self, file: &mut Option<FileEntry<R>>) -> Result<(), Error> {
        let Some(file) = file.take() else {
            return Ok(());
        };
        if let Some(header) = &mut self.copy {
            return header.add_file(file);
        }
        let mut header = copy_of(self.header)?;
        header.add_file(file)?;
        self.copy = Some(header);
        Ok(())
    }
}

// A copy of a header. The only refusal is out of memory.
fn copy_of<R: Reader>(header: &LineProgramHeader<R>) -> Result<LineProgramHeader<R>, Error>
    ensures value { IfOk result (λ copy. copy ≡ header.now) }
    ensures refusal { IfErr result (λ e. e ≡ Memory) }
{
    match header.copy() {
        Ok(copy) => Ok(copy),
        Err(_) => Err(Error::Memory),
    }
}

impl<'header, R: Reader> BorrowedLineProgram<'header, R> {
    /// The program of a header.
    pub fn new(header: &'header LineProgramHeader<R>) -> Self
        ensures { result ≡ header.now }
    {
        BorrowedLineProgram { header, copy: None }
    }

    /// The rows, from the first on. Takes memory only where a copy of the reader does.
    pub fn rows(self) -> Result<LineRows<R, BorrowedLineProgram<'header, R>>, Error>
        ensures value { ReturnsOrNoMemory result (Ok (program_rows self.entry)) }
        ensures free { IsTrue R.copies_freely → result ≢ Err Memory }
    {
        LineRows::new(self)
    }
}

/// A program with all files that its instructions define.
pub struct CompleteLineProgram<R: Reader> {
    header: LineProgramHeader<R>,
}

impl<R: Reader> Drop for CompleteLineProgram<R> {
    fn drop(self) {
        let CompleteLineProgram { header: _ } = self;
    }
}

impl<R: Reader> Model for CompleteLineProgram<R> {
    ghost use Rattle.gimli_lines_header.specs.LineHeaders.{LineHeader};

    ghost Value = { LineHeader };

    ghost view = { λ p. p.header };
}

impl<R: Reader> LineProgram<R> for &CompleteLineProgram<R> {
    ghost header_of = { λ p. p.now };

    ghost takes_files = { false };

    fn header(&self) -> &LineProgramHeader<R>
        ensures { result.now ≡ self.now.now }
    {
        &self.header
    }

    fn take_file(&mut self, _file: &mut Option<FileEntry<R>>) -> Result<(), Error>
        ensures ok { OnOk result (self.new.now ≡ header_with_any false _file.old self.old.now) }
        ensures err { IfErr result (λ e. (e ≡ Memory) × (self.new.now ≡ self.old.now)) }
        ensures free { IsOk result }
    {
        Ok(())
    }
}

impl<R: Reader> CompleteLineProgram<R> {
    /// The rows of a sequence, from its first on. Takes memory only where a copy of the reader
    /// does.
    pub fn resume_from(
        &self,
        sequence: &LineSequence<R>,
    ) -> Result<LineRows<R, &CompleteLineProgram<R>>, Error>
        ensures value { ReturnsOrNoMemory result
            (Ok (sequence_rows self.now sequence.now.instructions)) }
        ensures free { IsTrue R.copies_freely → result ≢ Err Memory }
    {
        Ok(LineRows::over(self, sequence.instructions().copy()?))
    }

    /// The header, with all files.
    pub fn header(&self) -> &LineProgramHeader<R>
        ensures { result.now ≡ self.now }
    {
        &self.header
    }
}
