//! The split files that an address waits for, and answers to them.

ghost use Rattle.std.specs.Prelude.{◌≡◌, ◌≢◌, ◌⊎◌, [], length, map, slice_get, IfErr, IfOk, IfSome, option_map};
ghost use Rattle.addr2line_context.specs.Error.TheVariants.{Memory};
ghost use Rattle.addr2line_context.specs.Preloads.{load_of_item};
ghost use Rattle.addr2line_context.specs.SettledLookups.{loads_in};
ghost use Rattle.addr2line_loader.specs.ResolvedFiles.{answered_context};
ghost use Rattle.addr2line_c.specs.Answers.{AnswersLoad, SkipsLoad, WritesLoad, split_file_of};
ghost use Rattle.addr2line_c.specs.COutputs.{has, or_empty};
ghost use Rattle.addr2line_c.specs.Numbers.{error_number, refused_number, some_number};

use crate::c_types::{A2lLoad, has};
use crate::handle::Handle;
use crate::load_sources::OneFile;
use crate::numbers::{OK, PAST_END, WRONG_FILE, done_number, error_number, refused_number};
use crate::open_file::OpenFile;
use addr2line_context::{Dwarf, Error, Reader, SplitDwarfLoad, UnitToken};
use addr2line_loader::DecompressedSource;
use addr2line_split::{ImageReader, load_split};
use bytes::Bytes;
use std::alloc::Global;
use std::rc::Rc;

/// Finds the split files that an address waits for, and keeps them.
#[unsafe(no_mangle)]
pub extern "C" fn a2l_find_loads(handle: &mut Handle, address: u64, count: &mut usize) -> i32
    ensures number { handle.old.opened ≡ 1 → (result ≡ OK) ⊎ ((result ≡ error_number Memory)
        × (loads_in (answered_context handle.old.file.loader.file) address ≢ [])) }
    ensures loads { result ≡ OK → (map load_of_item handle.new.file.loads.items
        ≡ loads_in (answered_context handle.old.file.loader.file) address)
        × (count.new ≡ length handle.new.file.loads.items) }
    ensures none { result ≢ OK → (count.new ≡ 0)
        × (handle.old.opened ≡ 1 → handle.new.file.loads.items ≡ []) }
    ensures file { handle.old.opened ≡ 1 → (handle.new.opened ≡ 1)
        × (handle.new.file ≡ record handle.old.file { loads = handle.new.file.loads }) }
    ensures refused { handle.old.opened ≢ 1 → (result ≡ refused_number handle.old.opened)
        × (handle.new ≡ handle.old) }
{
    *count = 0;
    let opened = handle.state();
    if opened != 1 {
        return refused_number(opened);
    }
    let file = handle.file_mut();
    let done = file.find_loads(address);
    if done.is_ok() {
        *count = file.loads.len();
    }
    done_number(done)
}

// The bytes of a reader, if there is one.
fn bytes_of<R: Reader>(reader: &Option<R>) -> &[u8]
    ensures { result.now ≡ or_empty (option_map (λ v. v.bytes) (option_map R.view reader.now)) }
{
    match reader {
        Some(reader) => reader.as_bytes(),
        None => &[],
    }
}

impl<'a> A2lLoad<'a> {
    // A load that is kept.
    fn of<R: Reader>(load: &'a SplitDwarfLoad<R>) -> Self
        ensures { WritesLoad load.now result }
    {
        A2lLoad {
            directory: bytes_of(&load.comp_dir),
            name: bytes_of(&load.path),
            id: load.dwo_id.0,
            has_directory: has(&load.comp_dir),
            has_name: has(&load.path),
        }
    }
}

/// The split file of a number, of those that are kept. Its texts are lent until the handle is used
/// again.
#[unsafe(no_mangle)]
pub extern "C" fn a2l_get_load<'a>(
    handle: &'a mut Handle,
    number: usize,
    out: &mut A2lLoad<'a>,
) -> i32
    ensures number { handle.old.opened ≡ 1 → result
        ≡ some_number (slice_get handle.old.file.loads.items number) PAST_END }
    ensures load { result ≡ OK → IfSome (slice_get handle.old.file.loads.items number)
        (λ load. WritesLoad load.0 out.new) }
    ensures same { result ≢ OK → out.new ≡ out.old }
    ensures refused { handle.old.opened ≢ 1 → result ≡ refused_number handle.old.opened }
{
    let opened = handle.state();
    if opened != 1 {
        return refused_number(opened);
    }
    let loads: &[(SplitDwarfLoad<ImageReader>, UnitToken)] = handle.file().loads.as_slice();
    match loads.get(number) {
        Some(item) => {
            *out = A2lLoad::of(&item.0);
            OK
        }
        None => PAST_END,
    }
}

// The split file of a load, if these bytes are one, decompressed or as they are. The only refusal
// is out of memory.
fn split_file_of(
    alloc: Global,
    load: &SplitDwarfLoad<ImageReader>,
    decompress: bool,
    bytes: Bytes,
) -> Result<Option<Rc<Dwarf<ImageReader>>>, Error>
    ensures file { IfOk result (λ file. split_file_of decompress load.now bytes
        ≡ option_map (λ d. d.value.file) file) }
    ensures memory { IfErr result (λ e. e ≡ Memory) }
{
    let mut source = OneFile { bytes };
    if decompress {
        load_split(alloc, load, &mut DecompressedSource::new(alloc, source))
    } else {
        load_split(alloc, load, &mut source)
    }
}

impl OpenFile {
    // Answers the load of a number by the bytes of its split file, unless they are not that.
    fn answer_load(&mut self, alloc: Global, number: usize, bytes: Bytes) -> i32
        ensures { AnswersLoad bytes (slice_get self.old.loads.items number) self.old self.new
            result }
    {
        let Some(item) = self.loads.get(number) else {
            return PAST_END;
        };
        match split_file_of(alloc, &item.0, self.decompresses, bytes) {
            Ok(Some(file)) => done_number(self.loader.answer_load(item.1, Some(file))),
            Ok(None) => WRONG_FILE,
            Err(error) => error_number(error),
        }
    }

    // Answers the load of a number by no file.
    fn skip_load(&mut self, number: usize) -> i32
        ensures { SkipsLoad (slice_get self.old.loads.items number) self.old self.new result }
    {
        match self.loads.get(number) {
            Some(item) => done_number(self.loader.answer_load(item.1, None)),
            None => PAST_END,
        }
    }
}

/// Answers the load of a number by a copy of the bytes of its split file.
#[unsafe(no_mangle)]
pub extern "C" fn a2l_answer_load(
    alloc: Global,
    handle: &mut Handle,
    number: usize,
    bytes: &[u8],
) -> i32
    ensures answer { handle.old.opened ≡ 1 → (handle.new.opened ≡ 1)
        × AnswersLoad bytes.now (slice_get handle.old.file.loads.items number) handle.old.file
        handle.new.file result }
    ensures refused { handle.old.opened ≢ 1 → (result ≡ refused_number handle.old.opened)
        × (handle.new ≡ handle.old) }
{
    let opened = handle.state();
    if opened != 1 {
        return refused_number(opened);
    }
    let file = handle.file_mut();
    if file.loads.len() <= number {
        return PAST_END;
    }
    match Bytes::copy_from_slice(alloc, bytes) {
        Ok(bytes) => file.answer_load(alloc, number, bytes),
        Err(_) => error_number(Error::Memory),
    }
}

/// Answers the load of a number by the bytes of its split file, which stay where they are.
#[unsafe(no_mangle)]
pub extern "C" fn a2l_answer_load_in_place(
    alloc: Global,
    handle: &mut Handle,
    number: usize,
    bytes: &'static [u8],
) -> i32
    ensures answer { handle.old.opened ≡ 1 → (handle.new.opened ≡ 1)
        × AnswersLoad bytes.now (slice_get handle.old.file.loads.items number) handle.old.file
        handle.new.file result }
    ensures refused { handle.old.opened ≢ 1 → (result ≡ refused_number handle.old.opened)
        × (handle.new ≡ handle.old) }
{
    let opened = handle.state();
    if opened != 1 {
        return refused_number(opened);
    }
    handle
        .file_mut()
        .answer_load(alloc, number, Bytes::from_static(bytes))
}

/// Answers the load of a number by no file.
#[unsafe(no_mangle)]
pub extern "C" fn a2l_skip_load(handle: &mut Handle, number: usize) -> i32
    ensures answer { handle.old.opened ≡ 1 → (handle.new.opened ≡ 1)
        × SkipsLoad (slice_get handle.old.file.loads.items number) handle.old.file
        handle.new.file result }
    ensures refused { handle.old.opened ≢ 1 → (result ≡ refused_number handle.old.opened)
        × (handle.new ≡ handle.old) }
{
    let opened = handle.state();
    if opened != 1 {
        return refused_number(opened);
    }
    handle.file_mut().skip_load(number)
}
