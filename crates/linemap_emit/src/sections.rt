//! The sections that are emitted of a table.

ghost use Rattle.std.specs.Prelude.{◌≡◌};

use linemap_emit_fits::SectionId;
use std::marker::Model;

/// The bytes of the sections that are emitted, in memory.
#[derive(Debug, Drop)]
pub struct Sections {
    debug_abbrev: Vec<u8>,
    debug_info: Vec<u8>,
    debug_line: Vec<u8>,
    debug_line_str: Vec<u8>,
    debug_ranges: Vec<u8>,
    debug_rnglists: Vec<u8>,
    debug_str: Vec<u8>,
}

impl Model for Sections {
    ghost use Rattle.linemap_emit_fits.specs.EmittedSections.{SectionBytes};

    ghost Value = { SectionBytes };

    ghost view = { λ s. record {
      debug_abbrev = s.debug_abbrev.items;
      debug_info = s.debug_info.items;
      debug_line = s.debug_line.items;
      debug_line_str = s.debug_line_str.items;
      debug_ranges = s.debug_ranges.items;
      debug_rnglists = s.debug_rnglists.items;
      debug_str = s.debug_str.items;
    } };
}

impl Sections {
    ghost use Rattle.linemap_emit.specs.SectionBytesById.{bytes_of};

    // The sections of these bytes.
    pub(crate) fn new(
        debug_abbrev: Vec<u8>,
        debug_info: Vec<u8>,
        debug_line: Vec<u8>,
        debug_line_str: Vec<u8>,
        debug_ranges: Vec<u8>,
        debug_rnglists: Vec<u8>,
        debug_str: Vec<u8>,
    ) -> Self
        ensures { result
            ≡ record {
              debug_abbrev = debug_abbrev.items;
              debug_info = debug_info.items;
              debug_line = debug_line.items;
              debug_line_str = debug_line_str.items;
              debug_ranges = debug_ranges.items;
              debug_rnglists = debug_rnglists.items;
              debug_str = debug_str.items;
            } }
    {
        Sections {
            debug_abbrev,
            debug_info,
            debug_line,
            debug_line_str,
            debug_ranges,
            debug_rnglists,
            debug_str,
        }
    }

    /// The bytes of a section, borrowed: none if nothing is emitted into it.
    pub fn get(&self, id: SectionId) -> &[u8]
        ensures { result.now ≡ bytes_of id self.now }
    {
        match id {
            SectionId::DebugAbbrev => &self.debug_abbrev,
            SectionId::DebugInfo => &self.debug_info,
            SectionId::DebugLine => &self.debug_line,
            SectionId::DebugLineStr => &self.debug_line_str,
            SectionId::DebugRanges => &self.debug_ranges,
            SectionId::DebugRngLists => &self.debug_rnglists,
            SectionId::DebugStr => &self.debug_str,
            _ => &[],
        }
    }
}
