//! Questions as they are written.

use gimli_core::{
    AttributeSpecification, DW_FORM_implicit_const, DwAt, DwForm, Encoding, Error, Format,
    ReaderOffset, RunTimeEndian,
};
use gimli_lines::write;
use hex::FromHexError;
use std::alloc::{AllocError, AllocFailed, Global};
use std::io;

/// Why the program ends early.
#[derive(Debug, Drop)]
pub enum Mistake {
    Memory,
    Input,
    /// A word of a question that is none.
    Word,
}

impl From<AllocError> for Mistake {
    fn from(_refused: AllocError) -> Mistake {
        Mistake::Memory
    }
}

impl<T: Drop> From<AllocFailed<T>> for Mistake {
    fn from(_refused: AllocFailed<T>) -> Mistake {
        Mistake::Memory
    }
}

impl From<io::Error> for Mistake {
    fn from(error: io::Error) -> Mistake {
        if error.kind() == io::ErrorKind::OutOfMemory {
            Mistake::Memory
        } else {
            Mistake::Input
        }
    }
}

impl From<FromHexError> for Mistake {
    fn from(error: FromHexError) -> Mistake {
        match error {
            FromHexError::OutOfMemory => Mistake::Memory,
            _ => Mistake::Word,
        }
    }
}

/// The words of a question about the program of a unit.
#[derive(Default, Drop)]
pub struct ProgramWords {
    /// `by_reference`: its texts are in a table.
    pub is_by_reference: bool,
    /// `bare`: it has no files but that of the unit, and no rows.
    pub is_bare: bool,
    /// `strp`: it has a directory whose text is in `.debug_str`.
    pub has_reference: bool,
    /// `back`: its second row is after the address 0.
    pub goes_back: bool,
    /// `timestamps`, `sizes`, `digests` and `sources`: what it records of files in version 5.
    pub has_timestamps: bool,
    pub has_sizes: bool,
    pub has_digests: bool,
    pub has_sources: bool,
}

impl ProgramWords {
    fn add(&mut self, word: &str) -> Result<(), Mistake> {
        match word {
            "by_reference" => self.is_by_reference = true,
            "bare" => self.is_bare = true,
            "strp" => self.has_reference = true,
            "back" => self.goes_back = true,
            "timestamps" => self.has_timestamps = true,
            "sizes" => self.has_sizes = true,
            "digests" => self.has_digests = true,
            "sources" => self.has_sources = true,
            _ => return Err(Mistake::Word),
        }
        Ok(())
    }
}

/// A question: an operation, its numbers and its sections. A number that isn't given is 0.
#[derive(Drop)]
pub struct Case {
    pub operation: String,
    pub is_big: bool,
    /// The word `dwo`: the question is about a split file.
    pub is_split: bool,
    /// What the program of the question has.
    pub program: ProgramWords,
    pub format: Format,
    pub version: u16,
    pub address_size: u8,
    /// The bytes of a number; also a byte that is looked for, and the operations of an instruction.
    pub size: u8,
    pub offset: u64,
    pub base: u64,
    pub index: u64,
    pub value: u64,
    pub signed: i64,
    pub name: DwAt,
    pub forms: Vec<DwForm>,
    pub sections: Vec<Vec<u8>>,
    // The identifiers of the first bytes of sections.
    firsts: Vec<u32>,
}

impl Case {
    // A question without numbers and sections.
    fn new(alloc: Global, operation: String) -> Case {
        Case {
            operation,
            is_big: false,
            is_split: false,
            program: ProgramWords::default(),
            format: Format::Dwarf32,
            version: 0,
            address_size: 4,
            size: 0,
            offset: 0,
            base: 0,
            index: 0,
            value: 0,
            signed: 0,
            name: DwAt(0),
            forms: Vec::new(alloc),
            sections: Vec::new(alloc),
            firsts: Vec::new(alloc),
        }
    }

    /// Reads `OPERATION WORD.. : HEX..`.
    pub fn parse(alloc: Global, line: &str) -> Result<Case, Mistake> {
        let (question, sections) = line.split_once(':').ok_or(Mistake::Word)?;
        let mut words = question.split_whitespace();
        let operation = words.next().ok_or(Mistake::Word)?.to_string(alloc)?;
        let mut case = Case::new(alloc, operation);
        for word in words {
            case.add_word(word)?;
        }
        for word in sections.split_whitespace() {
            case.sections.push(bytes_of(alloc, word)?)?;
        }
        Ok(case)
    }

    fn add_word(&mut self, word: &str) -> Result<(), Mistake> {
        match word.split_once('=') {
            Some((key, number)) => self.add_number(key, number),
            None => self.add_flag(word),
        }
    }

    fn add_flag(&mut self, word: &str) -> Result<(), Mistake> {
        match word {
            "big" => self.is_big = true,
            "dwo" => self.is_split = true,
            "dwarf64" => self.format = Format::Dwarf64,
            _ => return self.program.add(word),
        }
        Ok(())
    }

    fn add_number(&mut self, key: &str, number: &str) -> Result<(), Mistake> {
        match key {
            "version" => self.version = number.parse().map_err(|_| Mistake::Word)?,
            "address_size" => self.address_size = number.parse().map_err(|_| Mistake::Word)?,
            "size" => self.size = number.parse().map_err(|_| Mistake::Word)?,
            "first" => self
                .firsts
                .push(number.parse().map_err(|_| Mistake::Word)?)?,
            "signed" => self.signed = number.parse().map_err(|_| Mistake::Word)?,
            "name" => self.name = DwAt(number.parse().map_err(|_| Mistake::Word)?),
            "form" => self
                .forms
                .push(DwForm(number.parse().map_err(|_| Mistake::Word)?))?,
            _ => self.add_wide_number(key, number.parse().map_err(|_| Mistake::Word)?)?,
        }
        Ok(())
    }

    fn add_wide_number(&mut self, key: &str, number: u64) -> Result<(), Mistake> {
        match key {
            "offset" => self.offset = number,
            "base" => self.base = number,
            "index" => self.index = number,
            "value" => self.value = number,
            _ => return Err(Mistake::Word),
        }
        Ok(())
    }

    /// The identifier of the first byte of a section, 0 where it isn't given.
    pub fn first(&self, number: usize) -> u32 {
        match self.firsts.get(number) {
            Some(first) => *first,
            None => 0,
        }
    }

    /// The bytes of a section, none where it isn't given.
    pub fn section(&self, number: usize) -> &[u8] {
        match self.sections.get(number) {
            Some(section) => section.as_slice(),
            None => &[],
        }
    }

    pub fn order(&self) -> RunTimeEndian {
        if self.is_big {
            RunTimeEndian::Big
        } else {
            RunTimeEndian::default()
        }
    }

    /// The encoding of a unit.
    pub fn encoding(&self) -> Encoding {
        Encoding {
            address_size: self.address_size,
            format: self.format,
            version: self.version,
        }
    }

    /// The offset, as a reader counts.
    pub fn offset<O: ReaderOffset>(&self) -> Result<O, Error> {
        O::from_u64(self.offset)
    }

    /// The index in a list.
    pub fn index(&self) -> usize {
        usize::try_from(self.index).unwrap_or(usize::MAX)
    }

    /// The offset in bytes that are written.
    pub fn place(&self) -> usize {
        usize::try_from(self.offset).unwrap_or(usize::MAX)
    }

    /// The value as a number of fewer bits.
    pub fn narrow<T>(&self) -> Result<T, write::Error>
    where
        T: TryFrom<u64>,
        T::Error: Drop,
    {
        T::try_from(self.value).map_err(|_| write::Error::ValueTooLarge)
    }

    /// The base and the index.
    pub fn base_and_index<O: ReaderOffset>(&self) -> Result<(O, O), Error> {
        match (O::from_u64(self.base), O::from_u64(self.index)) {
            (Ok(base), Ok(index)) => Ok((base, index)),
            (Err(error), _) => Err(error),
            (_, Err(error)) => Err(error),
        }
    }

    /// The attribute of a form, with `signed` as its constant where the form has one.
    pub fn specification(&self, form: DwForm) -> AttributeSpecification {
        if form == DW_FORM_implicit_const {
            AttributeSpecification::new(self.name, DW_FORM_implicit_const, Some(self.signed))
        } else {
            AttributeSpecification::new(self.name, form, None)
        }
    }

    /// The attributes of the forms, in order.
    pub fn specifications(&self, alloc: Global) -> Result<Vec<AttributeSpecification>, Error> {
        let mut all = Vec::new(alloc);
        for form in self.forms.iter() {
            all.push(self.specification(*form))?;
        }
        Ok(all)
    }
}

// The bytes of a word: `-` for none, else one part or several that `+` joins. A part is digits, or
// `DIGITS*COUNT` for the same bytes as many times.
fn bytes_of(alloc: Global, word: &str) -> Result<Vec<u8>, Mistake> {
    let mut bytes = Vec::new(alloc);
    if word == "-" {
        return Ok(bytes);
    }
    for part in word.split('+') {
        add_part(alloc, part, &mut bytes)?;
    }
    Ok(bytes)
}

fn add_part(alloc: Global, part: &str, bytes: &mut Vec<u8>) -> Result<(), Mistake> {
    let (digits, count) = match part.split_once('*') {
        Some((digits, count)) => (digits, count.parse().map_err(|_| Mistake::Word)?),
        None => (part, 1u32),
    };
    let repeated = hex::decode(alloc, digits)?;
    for _ in 0..count {
        bytes.extend_from_slice(&repeated)?;
    }
    Ok(())
}
