//! Sections that are not read here: they are there for others to read.

use gimli_dwarf_spec::{Reader, Section, SectionId};
use std::marker::Model;

/// `.debug_macinfo`: macro information up to version 4 (DWARF 4, 6.3). It is held, and not read.
#[derive(Debug, Drop)]
pub struct DebugMacinfo<R: Reader> {
    section: R,
}

impl<R: Reader> Model for DebugMacinfo<R> {
    ghost use Rattle.gimli_dwarf_spec.specs.View.{View};

    ghost Value = { View };

    ghost view = { λ s. R.view s.section };
}

impl<R: Reader> From<R> for DebugMacinfo<R> {
    ghost use Rattle.std.specs.Prelude.{◌≡◌};

    ghost from_gives = { λ reader section. section ≡ R.view reader };

    fn from(section: R) -> Self {
        DebugMacinfo { section }
    }
}

impl<R: Reader> Section<R> for DebugMacinfo<R> {
    ghost use Rattle.gimli_dwarf_spec.specs.SectionId.TheVariants.{DebugMacinfo};

    ghost section_id = { DebugMacinfo };

    ghost section_view = { λ s. s };

    fn id() -> SectionId {
        SectionId::DebugMacinfo
    }

    fn reader(&self) -> &R {
        &self.section
    }

    ghost from_reader = { λ _ _ same. same };
}

/// `.debug_macro`: macro information from version 5 on (DWARF 5, 6.3). It is held, and not read.
#[derive(Debug, Drop)]
pub struct DebugMacro<R: Reader> {
    section: R,
}

impl<R: Reader> Model for DebugMacro<R> {
    ghost use Rattle.gimli_dwarf_spec.specs.View.{View};

    ghost Value = { View };

    ghost view = { λ s. R.view s.section };
}

impl<R: Reader> From<R> for DebugMacro<R> {
    ghost use Rattle.std.specs.Prelude.{◌≡◌};

    ghost from_gives = { λ reader section. section ≡ R.view reader };

    fn from(section: R) -> Self {
        DebugMacro { section }
    }
}

impl<R: Reader> Section<R> for DebugMacro<R> {
    ghost use Rattle.gimli_dwarf_spec.specs.SectionId.TheVariants.{DebugMacro};

    ghost section_id = { DebugMacro };

    ghost section_view = { λ s. s };

    fn id() -> SectionId {
        SectionId::DebugMacro
    }

    fn reader(&self) -> &R {
        &self.section
    }

    ghost from_reader = { λ _ _ same. same };
}

/// `.debug_names`: an index of names (DWARF 5, 6.1.1). It is held, and not read.
#[derive(Debug, Drop)]
pub struct DebugNames<R: Reader> {
    section: R,
}

impl<R: Reader> Model for DebugNames<R> {
    ghost use Rattle.gimli_dwarf_spec.specs.View.{View};

    ghost Value = { View };

    ghost view = { λ s. R.view s.section };
}

impl<R: Reader> From<R> for DebugNames<R> {
    ghost use Rattle.std.specs.Prelude.{◌≡◌};

    ghost from_gives = { λ reader section. section ≡ R.view reader };

    fn from(section: R) -> Self {
        DebugNames { section }
    }
}

impl<R: Reader> Section<R> for DebugNames<R> {
    ghost use Rattle.gimli_dwarf_spec.specs.SectionId.TheVariants.{DebugNames};

    ghost section_id = { DebugNames };

    ghost section_view = { λ s. s };

    fn id() -> SectionId {
        SectionId::DebugNames
    }

    fn reader(&self) -> &R {
        &self.section
    }

    ghost from_reader = { λ _ _ same. same };
}

/// `.debug_types`: type units of version 4 (DWARF 4, 7.5.1.2). It is held, and not read.
#[derive(Debug, Drop)]
pub struct DebugTypes<R: Reader> {
    section: R,
}

impl<R: Reader> Model for DebugTypes<R> {
    ghost use Rattle.gimli_dwarf_spec.specs.View.{View};

    ghost Value = { View };

    ghost view = { λ s. R.view s.section };
}

impl<R: Reader> From<R> for DebugTypes<R> {
    ghost use Rattle.std.specs.Prelude.{◌≡◌};

    ghost from_gives = { λ reader section. section ≡ R.view reader };

    fn from(section: R) -> Self {
        DebugTypes { section }
    }
}

impl<R: Reader> Section<R> for DebugTypes<R> {
    ghost use Rattle.gimli_dwarf_spec.specs.SectionId.TheVariants.{DebugTypes};

    ghost section_id = { DebugTypes };

    ghost section_view = { λ s. s };

    fn id() -> SectionId {
        SectionId::DebugTypes
    }

    fn reader(&self) -> &R {
        &self.section
    }

    ghost from_reader = { λ _ _ same. same };
}
