//! How runs end, and what their streams hold.

use crate::answer::Answer;
use linemap_lookup::Ended;
use std::str;

/// The status of a run, and the flags that it sets.
pub fn add_end(ended: Ended, out: &mut Answer) {
    out.text("status ");
    out.value(&ended.status);
    for (flag, name) in [
        (ended.memory, " memory"),
        (ended.read, " read"),
        (ended.write, " write"),
    ] {
        if flag {
            out.text(name);
        }
    }
}

/// A name and a text in quotes, on one line.
pub fn add_stream(name: &str, text: &[u8], out: &mut Answer) {
    out.text(name);
    out.text("\"");
    match str::from_utf8(text) {
        Ok(text) => {
            for letter in text.chars() {
                match letter {
                    '\n' => out.text("\\n"),
                    other => out.value(&other),
                }
            }
        }
        Err(_) => out.text("no text"),
    }
    out.text("\"");
}
