//! Texts, each once, and where they begin in the section that holds them.

ghost use Rattle.std.specs.Prelude.{◌≡◌, ◌<◌, ◌++◌, ◌∷◌, [], Some, All, length, map, slice_get, false, OnOk, OnErr, IfOk, IfErr};
ghost use Rattle.std.specs.List.{list_any};
ghost use Rattle.gimli_lines_write_rows.specs.WriteError.TheVariants.{Memory};
ghost use Rattle.gimli_lines_write_tables.specs.StringSections.{IsText, same_bytes, with_text, text_index, offset_of};

use gimli_lines_write_rows::Error;
use indexmap::IndexSet;
use std::alloc::Global;
use std::marker::Model;

/// Texts in the order of their first adds. The bytes of each are kept once.
#[derive(Drop)]
pub struct Texts {
    texts: IndexSet<Vec<u8>>,
    offsets: Vec<usize>,
    // How long the section is: the offset of the next text.
    size: usize,
}

impl Model for Texts {
    ghost use Rattle.std.specs.Prelude.{ℕ, List, map};
    ghost use Rattle.std.specs.Coded.{coded_list, coded_ℕ};
    ghost use Rattle.gimli_lines_write_tables.specs.TextTables.{IsTextTable, texts_of};

    ghost Value = { List (List ℕ) };

    ghost coded = { coded_list (coded_list coded_ℕ) };

    ghost view = { λ t. texts_of t.texts };

    ghost invariant = { λ t. IsTextTable (texts_of t.texts) t.offsets.items t.size };
}

impl Texts {
    /// No texts. It takes no memory.
    pub fn new(alloc: Global) -> Self
        ensures { result ≡ [] }
    {
        Texts {
            texts: IndexSet::new(alloc),
            offsets: Vec::new(alloc),
            size: 0,
        }
    }

    /// The place of a text, which is added where it isn't there.
    pub fn add(&mut self, alloc: Global, bytes: &[u8]) -> Result<usize, Error>
        requires { IsText bytes.now }
        ensures ok { OnOk result (self.new ≡ with_text self.old bytes.now) }
        ensures place { IfOk result (λ place. place ≡ text_index self.old bytes.now) }
        ensures err { OnErr result (self.new ≡ self.old) }
        ensures refusal { IfErr result (λ e. e ≡ Memory) }
    {
        match self.texts.get_index_of(bytes) {
            Some(place) => Ok(place),
            None => self.push(alloc, bytes),
        }
    }

    // Adds a text that isn't there. Texts whose section is longer than `usize::MAX` fit in no
    // memory, so they are refused as out of memory too.
    fn push(&mut self, alloc: Global, bytes: &[u8]) -> Result<usize, Error>
        requires text { IsText bytes.now }
        requires absent { list_any (same_bytes bytes.now) self.old ≡ false }
        ensures ok { OnOk result (self.new ≡ self.old ++ bytes.now ∷ []) }
        ensures place { IfOk result (λ place. place ≡ length self.old) }
        ensures err { OnErr result (self.new ≡ self.old) }
        ensures refusal { IfErr result (λ e. e ≡ Memory) }
    {
        let size = self.size.checked_add(bytes.len() + 1).ok_or(Error::Memory)?;
        let text = Vec::from_slice(alloc, bytes)?;
        let place = self.texts.len();
        self.offsets.reserve(1)?;
        self.texts.insert(text)?;
        self.offsets.push(self.size)?;
        self.size = size;
        Ok(place)
    }

    /// How many texts there are.
    pub fn count(&self) -> usize
        ensures count { result ≡ length self.now }
        ensures texts { All IsText self.now }
    {
        self.texts.len()
    }

    /// The text at a place.
    pub fn get(&self, place: usize) -> &[u8]
        requires { place < length self.now }
        ensures { slice_get self.now place ≡ Some result.now }
    {
        self.texts.get_index(place).unwrap().as_slice()
    }

    /// Where the text at a place begins in the section.
    pub fn offset(&self, place: usize) -> usize
        requires { place < length self.now }
        ensures { result ≡ offset_of self.now place }
    {
        self.offsets[place]
    }

    /// The texts, in order.
    pub fn as_slice(&self) -> &[Vec<u8>]
        ensures { map (λ t. t.items) result.now ≡ self.now }
    {
        self.texts.as_slice()
    }
}
