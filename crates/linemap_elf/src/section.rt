//! Sections that an image is made of.

use std::marker::Model;

/// A section: its name, and its bytes.
#[derive(Debug, Drop)]
pub struct Section<'a> {
    name: &'static str,
    bytes: &'a [u8],
}

impl<'a> Model for Section<'a> {
    ghost use Rattle.linemap_elf.specs.SpelledImages.{NamedBytes};

    ghost Value = { NamedBytes };

    ghost view = { λ s. record { name = s.name.now; bytes = s.bytes.now } };
}

impl<'a> Section<'a> {
    ghost use Rattle.std.specs.Prelude.{◌≡◌};

    /// The section of a name.
    pub fn new(name: &'static str, bytes: &'a [u8]) -> Self
        ensures { result ≡ record { name = name.now; bytes = bytes.now } }
    {
        Section { name, bytes }
    }

    /// Its name.
    pub fn name(&self) -> &'static str
        ensures { result.now ≡ self.now.name }
    {
        self.name
    }

    /// Its bytes.
    pub fn bytes(&self) -> &'a [u8]
        ensures { result.now ≡ self.now.bytes }
    {
        self.bytes
    }
}
