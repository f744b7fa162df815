//! A path's elements, each after its length.

ghost use Rattle.std.specs.Prelude.{◌≡◌, ◌<◌, ◌^◌, length, Ok, IsAscii, option_map};
ghost use Rattle.std.specs.Char.{is_ascii_digit};
ghost use Rattle.std.specs.List.{prefix_len};
ghost use Rattle.gimli_core_base.specs.Calls.{ReturnsAsOrNoMemory};
ghost use Rattle.addr2line_demangle.specs.LegacyNames.{first_element, path_of};
ghost use Rattle.addr2line_demangle.specs.LegacyPathView.{path_view};

use gimli_core_base::error::Error;
use std::alloc::Global;

// The elements of a path, and the text after its end.
#[derive(Drop)]
pub(crate) struct Path<'a> {
    pub(crate) elements: Vec<&'a str>,
    pub(crate) suffix: &'a str,
}

// The number of decimal digits that a text begins with.
fn leading_digits(text: &str) -> usize
    ensures count { result ≡ prefix_len is_ascii_digit text.now }
    ensures fits { length text.now < 2 ^ 64 }
{
    text.as_bytes()
        .iter()
        .take_while(|b| b.is_ascii_digit())
        .count()
}

// The first element, whose length the text begins with, and the text after it.
fn first_element(text: &str) -> Option<(&str, &str)>
    requires { IsAscii text.now }
    ensures { option_map (λ r. record { text = r.0.now; rest = r.1.now }) result
        ≡ first_element text.now }
{
    let (digits, rest) = text.split_at(leading_digits(text));
    match digits.parse::<usize>() {
        Ok(length) => {
            if length <= rest.len() {
                Some(rest.split_at(length))
            } else {
                None
            }
        }
        Err(_) => None,
    }
}

// The path that a text is, if its elements reach its end.
pub(crate) fn read_path(alloc: Global, text: &str) -> Result<Option<Path<'_>>, Error>
    requires { IsAscii text.now }
    ensures { ReturnsAsOrNoMemory (option_map path_view) result (Ok (path_of text.now)) }
{
    let mut elements = Vec::new(alloc);
    let mut rest = text;
    while let Some((element, tail)) = first_element(rest) {
        elements.push(element)?;
        rest = tail;
    }
    match rest.strip_prefix('E') {
        Some(suffix) => Ok(Some(Path { elements, suffix })),
        None => Ok(None),
    }
}
