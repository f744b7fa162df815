//! The loads of split files that the lookups of an address wait for, and answers to them, for a
//! caller that brings the files itself.

ghost use Rattle.std.specs.Prelude.{◌≡◌, ◌≢◌, [], map, None, Ok, Err, option_map};
ghost use Rattle.addr2line_context.specs.Calls.{ReturnsAsOrNoMemory};
ghost use Rattle.addr2line_context.specs.Error.TheVariants.{Memory};
ghost use Rattle.addr2line_context.specs.LoadAnswers.{AnswersOrNoMemory};
ghost use Rattle.addr2line_context.specs.Lookups.{answer_load};
ghost use Rattle.addr2line_context.specs.Preloads.{load_of_item};
ghost use Rattle.addr2line_context.specs.SettledLookups.{loads_in};
ghost use Rattle.addr2line_loader.specs.ResolvedFiles.{answered_context};

use crate::loader::Loader;
use addr2line_context::{Dwarf, Error, SplitDwarfLoad, UnitToken};
use addr2line_split::ImageReader;
use std::rc::Rc;

impl Loader {
    /// The loads that lookups of this address may wait for, as `Context::preload_units` finds them:
    /// each with the token of its unit. It takes memory only where there is one.
    pub fn preload_units(
        &mut self,
        probe: u64,
    ) -> Result<Vec<(SplitDwarfLoad<ImageReader>, UnitToken)>, Error>
        ensures loads { ReturnsAsOrNoMemory (λ found. map load_of_item found.items) result
            (Ok (loads_in (answered_context self.old.file) probe)) }
        ensures same { self.new ≡ self.old }
        ensures free { loads_in (answered_context self.old.file) probe ≡ []
            → result ≢ Err Memory }
    {
        self.context.preload_units(probe)
    }

    /// Answers the load of a unit, as `Context::answer_load` does: by the sections of its split
    /// file, or by none where there is no such file. The first answer is kept, a refusal too.
    pub fn answer_load(
        &mut self,
        token: UnitToken,
        file: Option<Rc<Dwarf<ImageReader>>>,
    ) -> Result<(), Error>
        ensures answers { AnswersOrNoMemory result self.old.file.answers self.new.file.answers
            (answer_load self.old.file.context self.old.file.answers token
            (option_map (λ f. f.value.file) file)) }
        ensures same { self.new.file
            ≡ record self.old.file { answers = self.new.file.answers } }
    {
        self.context.answer_load(token, file)
    }
}
