//! Answers questions about lookups. A line `contexts:` or `tables:`, which is repeated, says what
//! comes after it: paragraphs about the addresses of small files, as at the beginning, or a
//! question about a table in each line. `paragraphs.rt` and `tables.rt` say how they are written.
//! Where memory is refused for an answer, it is asked for again, and what follows begins with
//! `E1, then`.
#![tactic(auto)]

mod answer;
mod mistake;
mod paragraphs;
mod tables;

use mistake::Mistake;
use paragraphs::answers;
use std::io::{BufRead, BufReader};
use tables::answer_line;

// The lines that say what comes after them.
const CONTEXTS: &str = "contexts:";

const TABLES: &str = "tables:";

fn main(rt: HostRuntime) -> Result<(), Mistake> {
    let input = BufReader::new(rt.alloc(), rt.reader())?;
    let mut files = Vec::new(rt.alloc());
    let mut paragraph = Vec::new(rt.alloc());
    let mut is_about_tables = false;
    for line in input.lines(rt.alloc()) {
        let line = line?;
        if line.as_str() == CONTEXTS || line.as_str() == TABLES {
            print!(rt; "{}{line}\n", answers(&rt, &mut files, &mut paragraph)?)?;
            is_about_tables = line.as_str() == TABLES;
        } else if is_about_tables {
            println!(rt; "{}", answer_line(&rt, &line)?)?;
        } else if line.is_empty() {
            print!(rt; "{}", answers(&rt, &mut files, &mut paragraph)?)?;
        } else {
            paragraph.push(line)?;
        }
    }
    print!(rt; "{}", answers(&rt, &mut files, &mut paragraph)?)?;
    Ok(())
}
