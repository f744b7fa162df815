//! The text of a place in the source.

ghost use Rattle.std.specs.Prelude.{◌≡◌, ◌++◌, OnOk, codes};
ghost use Rattle.std.specs.String.{string_bytes};
ghost use Rattle.linemap_meaning.specs.AnswerTexts.{discriminator_text, number_text};

use std::alloc::AllocError;

/// Appends a file and a line; `?` is one that isn't known.
#[tactic(auto, using(std::proofs::lemmas::Fmt::decimal_digit))]
pub fn push_line(text: &mut String, file: &str, line: Option<u32>) -> Result<(), AllocError>
    ensures { OnOk result (string_bytes text.new
        ≡ string_bytes text.old ++ (file.now ++ (codes ":" ++ number_text line))) }
{
    match line {
        Some(line) => write!(text, "{file}:{line}"),
        None => write!(text, "{file}:?"),
    }
}

/// Appends a discriminator above 0.
#[tactic(auto, using(std::proofs::lemmas::Fmt::decimal_digit))]
pub fn push_discriminator(text: &mut String, discriminator: Option<u64>) -> Result<(), AllocError>
    ensures { OnOk result (string_bytes text.new
        ≡ string_bytes text.old ++ discriminator_text discriminator) }
{
    match discriminator {
        None | Some(0) => Ok(()),
        Some(number) => write!(text, " (discriminator {number})"),
    }
}
