//! The function of an address, with its calls.

use crate::{Function, FunctionCalls};
use gimli_units_entries::Reader;

/// A function that holds an address, and its name with its calls.
#[derive(Drop)]
pub struct FunctionAt<'a, R: Reader> {
    pub function: &'a Function<R::Offset>,
    pub calls: &'a FunctionCalls<R>,
}
