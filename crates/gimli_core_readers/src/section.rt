ghost use Rattle.std.specs.Prelude.{◌≡◌, option_map, IfSome, MatchResult, Ok, Err, Result};
ghost use Rattle.gimli_core_base.specs.View.{View, index_of};
ghost use Rattle.gimli_core_base.specs.declared.common.SectionId.{SectionId};
ghost use Rattle.gimli_core_base.specs.SectionNames.{name_of, dwo_name_of};

use crate::Reader;
use gimli_core_base::SectionId;
use gimli_core_base::constants::ReaderOffsetId;

/// A section of debugging information over a reader.
pub trait Section<R: Reader>: From<R> {
    /// Which section it is.
    ghost section_id: { SectionId };

    /// The section as contracts see it: its reader's view.
    ghost section_view: { Self → View };

    fn id() -> SectionId
        ensures { result ≡ section_id };

    /// The reader that holds the section.
    fn reader(&self) -> &R
        ensures { R.view result.now ≡ section_view self.now };

    /// The section's name in an ELF file.
    final fn section_name() -> &'static str
        ensures { result.now ≡ name_of section_id }
    {
        Self::id().name()
    }

    /// The section's name in a split file, for those that a split file may have.
    final fn dwo_section_name() -> Option<&'static str>
        ensures { option_map (λ name. name.now) result ≡ dwo_name_of section_id }
    {
        Self::id().dwo_name()
    }

    /// The section over the reader that a loader gives for it, or the loader's refusal.
    final fn load<F: FnOnce(SectionId) -> Result<R, E>, E>(f: F) -> Result<Self, E>
        requires { F.pre f section_id }
        ensures { (answer : Result R E) × F.post f section_id answer
            × MatchResult result (λ section. (reader : R) × (answer ≡ Ok reader)
            × (section_view section ≡ R.view reader)) (λ e. answer ≡ Err e) }
    {
        Ok(Self::from(f(Self::id())?))
    }

    /// The section and the offset in it of the place that an identifier names, the end included.
    final fn lookup_offset_id(&self, id: ReaderOffsetId) -> Option<(SectionId, R::Offset)>
        ensures section { IfSome result (λ p. p.0 ≡ section_id) }
        ensures offset { option_map (λ p. R.Offset.count p.1) result
            ≡ index_of id.0 (section_view self.now) }
    {
        self.reader()
            .lookup_offset_id(id)
            .map(|offset| (Self::id(), offset))
    }

    /// A section that is made of a reader has the reader's view.
    ghost from_reader: { (reader : R) (section : Self) → Self.from_gives reader section
        → section_view
        section ≡ R.view reader };
}
