//! The sections `.debug_str` and `.debug_line_str` as they are built: a table each, whose texts
//! have ids of their own.

ghost use Rattle.std.specs.Prelude.{◌≡◌, ℕ, ◌<◌, [], ◌∷◌, ◌++◌, Ok, Some, All, length, map, slice_get, OnOk, OnErr, IfOk, IfErr};
ghost use Rattle.gimli_lines_write_rows.specs.OutputBytes.{append, Writes};
ghost use Rattle.gimli_lines_write_rows.specs.EntryBytes.{Continues};
ghost use Rattle.gimli_lines_write_rows.specs.WriteError.TheVariants.{Memory};
ghost use Rattle.gimli_lines_write_tables.specs.StringSections.{IsText, with_text, text_index, section_of, offset_of};

use crate::texts::Texts;
use gimli_lines_write_rows::{DebugLineStrOffset, DebugStrOffset, Error, Writer};
use std::alloc::Global;
use std::marker::{Model, PhantomData};

/// The id of a text in the table of one section.
pub trait TextId: Copy {
    /// Where a text begins in the section.
    type Offset;

    ghost place: { Self → ℕ };

    ghost bytes: { Self.Offset → ℕ };

    /// The id of the text at a place in the table.
    fn new(index: usize) -> Self
        ensures { place result ≡ index };

    /// The place of the text in the table.
    fn index(self) -> usize
        ensures { result ≡ place self };

    /// The offset after a number of bytes of the section.
    fn offset_after(len: usize) -> Self::Offset
        ensures { bytes result ≡ len };
}

/// A text of a `StringTable`, by its place among them.
#[derive(Clone, Copy, Debug, PartialEq, Eq, PartialOrd, Ord, Hash)]
pub struct StringId(pub usize);

impl TextId for StringId {
    type Offset = DebugStrOffset;

    ghost place = { λ id. id.0 };

    ghost bytes = { λ offset. offset.0 };

    fn new(index: usize) -> Self {
        StringId(index)
    }

    fn index(self) -> usize {
        self.0
    }

    fn offset_after(len: usize) -> DebugStrOffset {
        DebugStrOffset(len)
    }
}

/// A text of a `LineStringTable`, by its place among them.
#[derive(Clone, Copy, Debug, PartialEq, Eq, PartialOrd, Ord, Hash)]
pub struct LineStringId(pub usize);

impl TextId for LineStringId {
    type Offset = DebugLineStrOffset;

    ghost place = { λ id. id.0 };

    ghost bytes = { λ offset. offset.0 };

    fn new(index: usize) -> Self {
        LineStringId(index)
    }

    fn index(self) -> usize {
        self.0
    }

    fn offset_after(len: usize) -> DebugLineStrOffset {
        DebugLineStrOffset(len)
    }
}

/// The texts of `.debug_str`, each kept once.
pub type StringTable = TextTable<StringId>;

/// The texts of `.debug_line_str`, each kept once.
pub type LineStringTable = TextTable<LineStringId>;

/// The texts of a string section, each once (DWARF 5, 7.26). The bytes of a text are kept once;
/// `write` makes the section of them. A contract sees the texts in the order of their first adds.
#[derive(Drop)]
pub struct TextTable<I> {
    texts: Texts,
    ids: PhantomData<I>,
}

impl<I> Model for TextTable<I> {
    ghost use Rattle.std.specs.Prelude.{ℕ, List};
    ghost use Rattle.std.specs.Coded.{coded_list, coded_ℕ};

    ghost Value = { List (List ℕ) };

    ghost coded = { coded_list (coded_list coded_ℕ) };

    ghost view = { λ t. t.texts };
}

// Writes a text and its zero byte.
fn write_text<W: Writer>(w: &mut W, text: &[u8]) -> Result<(), Error>
    ensures { Continues result (W.contents w.old) (W.contents w.new) (Ok (text.now ++ 0 ∷ [])) }
{
    w.write(text)?;
    w.write_u8(0)
}

// Writes texts, one after the other. Refused, the writer may have a prefix of their bytes.
fn write_texts<W: Writer>(w: &mut W, texts: &[Vec<u8>]) -> Result<(), Error>
    ensures { Continues result (W.contents w.old) (W.contents w.new)
        (Ok (section_of (map (λ t. t.items) texts.now))) }
{
    for text in texts {
        write_text(w, text.as_slice())?;
    }
    Ok(())
}

impl<I: TextId> TextTable<I> {
    /// A table without texts. It takes no memory.
    pub fn new(alloc: Global) -> Self
        ensures { result ≡ [] }
    {
        TextTable {
            texts: Texts::new(alloc),
            ids: PhantomData,
        }
    }

    /// Adds a text, which holds no zero byte, where it isn't there yet. Refused (W1), the table is
    /// as before.
    pub fn add(&mut self, alloc: Global, bytes: &[u8]) -> Result<I, Error>
        requires { IsText bytes.now }
        ensures ok { OnOk result (self.new ≡ with_text self.old bytes.now) }
        ensures place { IfOk result (λ id. I.place id ≡ text_index self.old bytes.now) }
        ensures err { OnErr result (self.new ≡ self.old) }
        ensures refusal { IfErr result (λ e. e ≡ Memory) }
    {
        let place = self.texts.add(alloc, bytes)?;
        Ok(I::new(place))
    }

    /// How many texts there are.
    pub fn count(&self) -> usize
        ensures count { result ≡ length self.now }
        ensures texts { All IsText self.now }
    {
        self.texts.count()
    }

    /// The text of an id, without its zero byte.
    pub fn get(&self, id: I) -> &[u8]
        requires { I.place id < length self.now }
        ensures { slice_get self.now (I.place id) ≡ Some result.now }
    {
        self.texts.get(id.index())
    }

    /// Where the text of an id begins in the section: the sum of length plus one over the texts
    /// before it.
    pub fn offset(&self, id: I) -> I::Offset
        requires { I.place id < length self.now }
        ensures { I.bytes result ≡ offset_of self.now (I.place id) }
    {
        I::offset_after(self.texts.offset(id.index()))
    }

    /// Writes the section, text by text, in time that grows with its length. It takes no memory but
    /// the writer's. Refused, the writer is as before.
    pub fn write<W: Writer>(&self, w: &mut W) -> Result<(), Error>
        ensures { Writes result (W.contents w.old) (W.contents w.new)
            (Ok (append (section_of self.now) (W.contents w.old))) }
    {
        let len = w.len();
        if let Err(refusal) = write_texts(w, self.texts.as_slice()) {
            w.truncate(len);
            return Err(refusal);
        }
        Ok(())
    }
}
