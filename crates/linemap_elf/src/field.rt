//! The fields of headers.

ghost use Rattle.std.specs.Prelude.{◌≡◌, ◌<◌, ◌^◌};
ghost use Rattle.addr2line_elf.specs.ElfClasses.{word_size};
ghost use Rattle.linemap_elf.specs.SpelledImages.{address};
ghost use Rattle.linemap_elf.specs.WrittenImages.{field_of};

use addr2line_elf::class::Class;

/// A number in a header, by its width (System V ABI, "Data Representation").
#[derive(Clone, Copy, Debug, PartialEq, Eq)]
pub enum Field {
    /// Two bytes.
    Half(u16),
    /// Four bytes.
    Word(u32),
    /// Eight bytes.
    Xword(u64),
}

// An address, an offset or a size of a class.
pub(crate) fn address(class: Class, n: u64) -> Field
    requires { n < 256 ^ word_size class }
    ensures { field_of result ≡ address class n }
{
    match class {
        Class::Elf32 => Field::Word(n as u32),
        Class::Elf64 => Field::Xword(n),
    }
}
