//! The target that a command line names.

ghost use Rattle.std.specs.Prelude.{◌≡◌, ◌↔◌, IsSome, IsTrue, IfSome, Some};
ghost use Rattle.linemap_image.specs.EmissionTargets.{encoding_of, is_big_of};
ghost use Rattle.linemap_commands.specs.Targets.{format_of, is_target};

use linemap_image::{Format, Target};

/// The target of a version of DWARF, the bits of its format, the bytes of an address and an order
/// of bytes, if tables are emitted for it.
pub fn target_of(dwarf: u16, bits: u16, size: u16, big: bool) -> Option<Target>
    ensures served { IsSome result ↔ IsTrue (is_target dwarf bits size) }
    ensures version { IfSome result (λ target. (encoding_of target).version ≡ dwarf) }
    ensures format { IfSome result
        (λ target. format_of bits ≡ Some (encoding_of target).format) }
    ensures size { IfSome result (λ target. (encoding_of target).address_size ≡ size) }
    ensures order { IfSome result (λ target. is_big_of target ≡ big) }
{
    let format = format_of(bits)?;
    match u8::try_from(size) {
        Ok(size) => Target::new(dwarf, format, size, big),
        Err(_) => None,
    }
}

// The format of a number of bits.
fn format_of(bits: u16) -> Option<Format>
    ensures { result ≡ format_of bits }
{
    match bits {
        32 => Some(Format::Dwarf32),
        64 => Some(Format::Dwarf64),
        _ => None,
    }
}
