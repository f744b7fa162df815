//! Appending what may be absent.

ghost use Rattle.std.specs.Prelude.{◌≡◌, ◌++◌, OnOk, IfErr};
ghost use Rattle.std.specs.Option.{option_to_list};
ghost use Rattle.gimli_lines_rows.specs.Error.TheVariants.{Memory};

use gimli_lines_rows::Error;

/// Appends an item, if there is one.
pub fn push_if_any<T: Drop>(items: &mut Vec<T>, item: Option<T>) -> Result<(), Error>
    ensures ok { OnOk result (items.new.items ≡ items.old.items ++ option_to_list item) }
    ensures refusal { IfErr result (λ e. e ≡ Memory) }
{
    if let Some(item) = item {
        items.push(item)?;
    }
    Ok(())
}
