//! What answers addresses, one after the other.

ghost use Rattle.std.specs.Prelude.{◌≡◌, [], ◌++◌, codes, if◌then◌else◌, None, OnOk, Some, option_map};
ghost use Rattle.std.specs.String.{string_bytes};
ghost use Rattle.addr2line_loader.specs.LoadedFiles.{symbol_name};
ghost use Rattle.addr2line_split.specs.ElfSymbols.{symbol_at};
ghost use Rattle.linemap_lookup.specs.AnswerBuffers.{Grows, GrowsByFrames, GrowsByLookup, answer_in};
ghost use Rattle.linemap_lookup.specs.LookupAnswers.{AnswersAddress, asks_frames, looked_up, no_answer};

use crate::answer::AnswerBuffer;
use crate::frames::push_no_frame;
use crate::lookups::{answer_frames, answer_place, copy_symbol, looked_up, push_place_line};
use crate::printer::push_address;
use addr2line_context::Range;
use addr2line_loader::Loader;
use addr2line_split::SplitSource;
use linemap_output::Options;
use std::alloc::{AllocError, Global};

// A loaded file, with the buffers for the answer of an address.
#[derive(Drop)]
pub(crate) struct Engine {
    pub alloc: Global,
    pub loader: Loader,
    // A copy of the name of a symbol.
    pub symbol: String,
    pub answer: AnswerBuffer,
}

// Whether functions are asked for, or the calls that are inlined there.
fn asks_frames(options: &Options) -> bool
    ensures { result ≡ asks_frames options.now }
{
    options.functions || options.inlines
}

// The name of a symbol, if there is one.
fn symbol_if(has_symbol: bool, name: &str) -> Option<&str>
    ensures { option_map (λ s. s.now) result ≡ (if has_symbol then Some name.now else None) }
{
    if has_symbol { Some(name) } else { None }
}

// Appends the empty line that follows an answer in the form of `llvm-symbolizer`.
fn push_end(text: &mut String, options: &Options) -> Result<(), AllocError>
    ensures { OnOk result (string_bytes text.new
        ≡ string_bytes text.old ++ (if options.now.llvm then codes "\n" else [])) }
{
    if options.llvm {
        text.push_str("\n")
    } else {
        Ok(())
    }
}

impl Engine {
    /// A loaded file, with buffers without room.
    pub fn new(alloc: Global, loader: Loader) -> Engine
        ensures { result.loader ≡ loader }
    {
        Engine {
            alloc,
            loader,
            symbol: String::new(alloc),
            answer: AnswerBuffer::new(alloc),
        }
    }

    // Appends the frames of an address, by the name of the symbol that holds it.
    fn answer_frames<S: SplitSource>(
        &mut self,
        options: &Options,
        address: u64,
        source: &mut S,
    ) -> Result<(), AllocError>
        ensures { OnOk result (GrowsByFrames S.answers options.now address
            (option_map symbol_name (symbol_at address self.old.loader.file.symbols))
            self.old.loader.file source.old self.old.answer self.new.answer self.new.loader.file
            source.new) }
    {
        let has_symbol = copy_symbol(&self.loader, address, &mut self.symbol)?;
        let symbol = symbol_if(has_symbol, &self.symbol);
        answer_frames(
            self.alloc,
            &mut self.loader,
            source,
            options,
            address,
            symbol,
            &mut self.answer,
        )
    }

    // Appends what is printed where nothing is looked up.
    fn answer_nothing(&mut self, options: &Options) -> Result<(), AllocError>
        ensures answer { OnOk result
            (Grows self.old.answer self.new.answer (no_answer options.now)) }
        ensures same { self.new.loader ≡ self.old.loader }
    {
        if asks_frames(options) {
            push_no_frame(self.alloc, &mut self.answer.text, options, None)
        } else {
            push_place_line(&mut self.answer.text, options, None)
        }
    }

    // Appends what is found for an address.
    fn answer_lookup<S: SplitSource>(
        &mut self,
        options: &Options,
        address: u64,
        source: &mut S,
    ) -> Result<(), AllocError>
        ensures { OnOk result (GrowsByLookup S.answers options.now (Some address)
            (record { file = self.old.loader.file; source = source.old }) self.old.answer
            self.new.answer (record { file = self.new.loader.file; source = source.new })) }
    {
        if asks_frames(options) {
            self.answer_frames(options, address, source)
        } else {
            answer_place(&mut self.loader, options, address, &mut self.answer)
        }
    }

    // Appends what is found for an address, if one is looked up.
    fn answer_if_any<S: SplitSource>(
        &mut self,
        options: &Options,
        section: Option<Range>,
        address: Option<u64>,
        source: &mut S,
    ) -> Result<(), AllocError>
        ensures { OnOk result (GrowsByLookup S.answers options.now (looked_up section address)
            (record { file = self.old.loader.file; source = source.old }) self.old.answer
            self.new.answer (record { file = self.new.loader.file; source = source.new })) }
    {
        match looked_up(section, address) {
            Some(address) => self.answer_lookup(options, address, source),
            None => self.answer_nothing(options),
        }
    }

    /// Puts the answer of an address into the buffers.
    pub fn answer<S: SplitSource>(
        &mut self,
        options: &Options,
        section: Option<Range>,
        address: Option<u64>,
        source: &mut S,
    ) -> Result<(), AllocError>
        ensures { OnOk result (AnswersAddress S.answers options.now section
            (record { file = self.old.loader.file; source = source.old })
            (answer_in address self.new.answer)
            (record { file = self.new.loader.file; source = source.new })) }
    {
        self.answer.clear();
        push_address(&mut self.answer.text, options, address.unwrap_or(0))?;
        self.answer_if_any(options, section, address, source)?;
        push_end(&mut self.answer.text, options)
    }
}
