//! With `linemap` alone: answers from a table.

ghost use Rattle.std.specs.Prelude.{◌≡◌, IfErr, IfOk, map, string_bytes};
ghost use Rattle.linemap.specs.Ask.{IsClean, ask_outcome};

use linemap::{Ended, ask};
use std::alloc::Global;

/// The source lines of addresses, from a table's JSON: a line of text for each, as `/w/src/a.c:5`.
pub fn source_lines(alloc: Global, table: &[u8], addresses: &[String]) -> Result<Vec<u8>, Ended>
    ensures answers { let wanted = ask_outcome table.now (map string_bytes addresses.now) in
        IfOk result (λ text. text.items ≡ wanted.out) }
    ensures refusal { let wanted = ask_outcome table.now (map string_bytes addresses.now) in
        IfErr result (λ ended. IsClean ended → ended.status ≡ wanted.status) }
{
    let mut out = Vec::new(alloc);
    let mut err = Vec::new(alloc);
    let ended = ask(alloc, table, addresses, &mut out, &mut err);
    if ended == Ended::with_status(0) {
        Ok(out)
    } else {
        Err(ended)
    }
}
