//! Laws of the texts of refusals. Each function does nothing; its contract is the law.

ghost use Rattle.std.specs.Prelude.{◌≡◌, Some};
ghost use Rattle.addr2line_context.specs.Error.{Error};
ghost use Rattle.gimli_core_base.specs.ErrorText.{error_text};
ghost use Rattle.addr2line_split.specs.LoadError.{LoadError};
ghost use Rattle.addr2line_split.specs.LoadErrors.{text_of};
ghost use Rattle.addr2line_c.specs.Numbers.{error_number, load_error_number};
ghost use Rattle.addr2line_c.specs.RefusalTexts.{code_of};

/// The letter and the number of a refusal are those that the library displays.
#[tactic(auto, using(crate::proofs::RefusalCodes::code_of_error, crate::proofs::RefusalCodes::code_of_load_error))]
pub fn the_texts_of_refusals()
    ensures errors { (e : Error) → code_of (error_number e) ≡ Some (error_text e) }
    ensures load_errors { (e : LoadError) → code_of (load_error_number e) ≡ Some (text_of e) }
{}
