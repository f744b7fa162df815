//! The tests of functions and their calls.

ghost use Rattle.std.specs.Prelude.{◌≡◌, ◌||◌, map, nat_le, nat_lt};
ghost use Rattle.std.specs.List.{list_any};
ghost use Rattle.linemap_meaning.specs.Conditions.{any_call, any_call_outside, any_calls_overlap, depth, greatest_depth, is_bad_number, is_bad_text};
ghost use Rattle.linemap_meaning.specs.TableViews.{function_part};

use crate::calls::{CallTest, any_call, any_call_outside, any_calls_overlap, is_deeper};
use crate::sequences::is_bad_number;
use crate::texts::is_bad_text;
use linemap_meaning::table::{TableCall, TableFunction};

/// B10.
pub fn has_call_outside(functions: &[TableFunction]) -> bool
    ensures { result ≡ list_any
        (λ f. any_call_outside f.ranges f.calls) (map function_part functions.now) }
{
    functions.iter().any(|function| any_call_outside(&function.ranges, &function.calls))
}

/// B11.
pub fn has_calls_overlap(functions: &[TableFunction]) -> bool
    ensures { result ≡ list_any (λ f. any_calls_overlap f.calls)
        (map function_part functions.now) }
{
    functions
        .iter()
        .any(|function| any_calls_overlap(&function.calls))
}

// Whether a call of the functions passes the test.
fn any_function_call<T: CallTest>(test: &T, functions: &[TableFunction]) -> bool
    ensures { result ≡ list_any
        (λ f. any_call (T.passes test.now) f.calls) (map function_part functions.now) }
{
    for function in functions {
        if any_call(test, &function.calls) {
            return true;
        }
    }
    false
}

/// B15, of calls.
pub fn any_bad_line_or_column(functions: &[TableFunction]) -> bool
    ensures { result ≡ list_any
        (λ f. any_call (λ c. is_bad_number c.line || is_bad_number c.column) f.calls)
        (map function_part functions.now) }
{
    any_function_call(&BadPlace, functions)
}

// The test for a call with a line or column that isn't allowed.
struct BadPlace;

impl CallTest for BadPlace {
    ghost passes = { λ _ c. is_bad_number c.line || is_bad_number c.column };

    fn passes(&self, call: &TableCall) -> bool {
        is_bad_number(call.line) || is_bad_number(call.column)
    }
}

/// B16, of calls.
pub fn any_bad_file_number(functions: &[TableFunction], files: usize) -> bool
    ensures { result ≡ list_any
        (λ f. any_call (λ c. nat_le files c.file) f.calls) (map function_part functions.now) }
{
    any_function_call(&FilePast { files }, functions)
}

// The test for a call whose file number is not below the number of files.
#[derive(Drop)]
struct FilePast {
    files: usize,
}

impl CallTest for FilePast {
    ghost passes = { λ s c. nat_le s.files c.file };

    fn passes(&self, call: &TableCall) -> bool {
        call.file >= self.files as u64
    }
}

/// B17, of functions and calls.
pub fn any_bad_name(functions: &[TableFunction]) -> bool
    ensures { result ≡ list_any
        (λ f. is_bad_text f.name || any_call (λ c. is_bad_text c.name) f.calls)
        (map function_part functions.now) }
{
    functions.iter().any(|function| is_bad_text(&function.name)
        || any_call(&BadName, &function.calls))
}

// The test for a call with a name that isn't allowed.
struct BadName;

impl CallTest for BadName {
    ghost passes = { λ _ c. is_bad_text c.name };

    fn passes(&self, call: &TableCall) -> bool {
        is_bad_text(&call.name)
    }
}

/// B19.
pub fn has_deep_calls(functions: &[TableFunction]) -> bool
    ensures { result ≡ list_any
        (λ f. nat_lt greatest_depth (depth f.calls)) (map function_part functions.now) }
{
    functions
        .iter()
        .any(|function| is_deeper(&function.calls, 50))
}
