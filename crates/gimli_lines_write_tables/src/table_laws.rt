//! What holds of every string section: each function here has an empty body, and its contract is a
//! law.

ghost use Rattle.std.specs.Prelude.{◌≡◌, ℕ, ◌<◌, ◌+◌, ◌++◌, List, Some, Ok, All, length, slice_get};
ghost use Rattle.gimli_lines_write_rows.specs.View.{View};
ghost use Rattle.gimli_lines_write_rows.specs.SectionReads.{string_at};
ghost use Rattle.gimli_lines_write_tables.specs.StringSections.{IsText, with_text, text_index, section_of, offset_of};

/// At a text's offset the section has that text, whatever follows the section.
pub fn text_reads_back()
    ensures { (texts : List (List ℕ)) (i : ℕ) (t rest : List ℕ) (v : View) → All IsText texts
        → slice_get texts i ≡ Some t
        → v.bytes ≡ section_of texts ++ rest
        → string_at (offset_of texts i) v
        ≡ Ok (record { bytes = t; is_big = v.is_big; first = v.first + offset_of texts i }) }
{}

/// A text that was added is at its index.
pub fn added_text_is_at_its_index()
    ensures { (texts : List (List ℕ)) (t : List ℕ)
        → slice_get (with_text texts t) (text_index texts t) ≡ Some t }
{}

/// Texts keep their places, and begin where they did.
pub fn texts_keep_their_indices()
    ensures { (texts : List (List ℕ)) (t s : List ℕ) (i : ℕ) → slice_get texts i ≡ Some s
        → (slice_get (with_text texts t) i ≡ Some s)
        × (offset_of (with_text texts t) i ≡ offset_of texts i) }
{}
