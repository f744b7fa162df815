//! The bytes of the sections that are emitted of a table.

use super::emission::sections_of;
use crate::answer::Answer;
use linemap_image::Target;
use linemap_text::{SectionId, Sections};

// The sections that tables have.
const EMITTED: [SectionId; 7] = [
    SectionId::DebugAbbrev,
    SectionId::DebugInfo,
    SectionId::DebugLine,
    SectionId::DebugLineStr,
    SectionId::DebugRanges,
    SectionId::DebugRngLists,
    SectionId::DebugStr,
];

/// Adds the sections that aren't empty, each by its name and its bytes.
pub fn answer(text: &[u8], target: Target, out: &mut Answer) {
    match sections_of(out.alloc, text, target) {
        Ok(sections) => add_sections(&sections, out),
        Err(refusal) => out.refuse_table(refusal),
    }
}

fn add_sections(sections: &Sections, out: &mut Answer) {
    let mut is_first = true;
    for id in EMITTED {
        let bytes = sections.get(id);
        if bytes.is_empty() {
            continue;
        }
        if !is_first {
            out.text(" ");
        }
        is_first = false;
        out.text(id.name());
        out.text(" ");
        for byte in bytes {
            out.byte(*byte);
        }
    }
}
