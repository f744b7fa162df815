//! What is read once, and kept from then on.

ghost use Rattle.std.specs.Prelude.{◌≡◌, ◌≢◌, Some, None, Err, is_some, option_map, OnOk, OnErr, IfOk, IfErr};
ghost use Rattle.addr2line_functions.specs.Error.TheVariants.{Memory};

use addr2line_functions::Error;
use std::marker::Model;

/// What reading gave, its value or its refusal; nothing before it is read. Out of memory is no
/// refusal: it is never kept, and the same is read again.
#[derive(Drop)]
pub struct Kept<T> {
    result: Option<Result<T, Error>>,
}

impl<T> Model for Kept<T> {
    ghost use Rattle.std.specs.Prelude.{◌≢◌, Option, Some, Result, Err};
    ghost use Rattle.addr2line_functions.specs.Error.{Error};
    ghost use Rattle.addr2line_functions.specs.Error.TheVariants.{Memory};

    ghost Value = { Option (Result T Error) };

    ghost view = { λ k. k.result };

    ghost invariant = { λ k. k.result ≢ Some (Err Memory) };
}

impl<T: Drop> Kept<T> {
    /// Nothing.
    pub fn not_read() -> Self
        ensures { result ≡ None }
    {
        Kept { result: None }
    }

    /// What reading gave, if something was read. Out of memory is returned.
    pub fn of(read: Option<Result<T, Error>>) -> Result<Self, Error>
        ensures ok { IfOk result (λ kept. kept ≡ read) }
        ensures refusal { IfErr result (λ e. e ≡ Memory) }
        ensures cause { OnErr result (read ≡ Some (Err Memory)) }
    {
        if matches!(&read, Some(Err(Error::Memory))) {
            return Err(Error::Memory);
        }
        Ok(Kept { result: read })
    }

    /// Whether something is kept, be it a refusal.
    pub fn is_read(&self) -> bool
        ensures { result ≡ is_some self.now }
    {
        self.result.is_some()
    }

    /// What is kept.
    pub fn result(&self) -> Option<&Result<T, Error>>
        ensures kept { option_map (λ r. r.now) result ≡ self.now }
        ensures answer { self.now ≢ Some (Err Memory) }
    {
        self.result.as_ref()
    }

    /// Keeps what reading gave. Out of memory is returned, and nothing changes.
    pub fn keep(&mut self, read: Result<T, Error>) -> Result<(), Error>
        ensures ok { OnOk result (self.new ≡ Some read) }
        ensures answer { OnOk result (read ≢ Err Memory) }
        ensures err { OnErr result (self.new ≡ self.old) }
        ensures refusal { IfErr result (λ e. e ≡ Memory) }
        ensures cause { OnErr result (read ≡ Err Memory) }
    {
        match read {
            Ok(value) => self.result = Some(Ok(value)),
            Err(Error::Memory) => return Err(Error::Memory),
            Err(fault) => self.result = Some(Err(fault)),
        }
        Ok(())
    }
}
