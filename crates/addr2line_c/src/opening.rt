//! Opening and closing.

ghost use Rattle.std.specs.Prelude.{◌≡◌, ◌≢◌, ◌⊎◌, false, Some, None};
ghost use Rattle.addr2line_loader.specs.LoadedFiles.{loaded_file};
ghost use Rattle.addr2line_split.specs.LoadError.TheVariants.{Memory};
ghost use Rattle.addr2line_c.specs.OpenHandles.{IsOpenOver};
ghost use Rattle.addr2line_c.specs.Numbers.{IsLoadedOrNoMemory, load_error_number, not_closed_number, refused_number};

use crate::handle::Handle;
use crate::numbers::{ALREADY_OPEN, BAD_LOADER, OK, load_error_number, refused_number};
use crate::open_file::OpenFile;
use addr2line_split::LoadError;
use bytes::Bytes;
use std::alloc::Global;

// The number for a loader that isn't closed, by its first word.
pub(crate) fn not_closed_number(opened: u32) -> i32
    ensures { result ≡ not_closed_number opened }
{
    if opened == 1 {
        ALREADY_OPEN
    } else {
        BAD_LOADER
    }
}

// Opens a closed handle with a file, in a box of its own.
pub(crate) fn open_file(alloc: Global, file: OpenFile, handle: &mut Handle) -> i32
    requires { handle.old.opened ≡ 0 }
    ensures number { (result ≡ OK) ⊎ (result ≡ load_error_number Memory) }
    ensures file { result ≡ OK → (handle.new.opened ≡ 1) × (handle.new.file ≡ file) }
    ensures same { result ≢ OK → handle.new ≡ handle.old }
{
    match Box::new(alloc, file) {
        Ok(file) => {
            handle.put(file);
            OK
        }
        Err(_) => load_error_number(LoadError::Memory),
    }
}

// Opens a closed handle over bytes that it shares.
pub(crate) fn open_over(
    alloc: Global,
    image: Bytes,
    supplement: Option<Bytes>,
    handle: &mut Handle,
) -> i32
    requires { handle.old.opened ≡ 0 }
    ensures number { IsLoadedOrNoMemory result (loaded_file image supplement) }
    ensures file { result ≡ OK → IsOpenOver false image supplement handle.new }
    ensures same { result ≢ OK → handle.new ≡ handle.old }
{
    match OpenFile::load(alloc, image, supplement) {
        Ok(file) => open_file(alloc, file, handle),
        Err(error) => load_error_number(error),
    }
}

/// Opens a handle over a copy of the bytes of a file.
#[unsafe(no_mangle)]
pub extern "C" fn a2l_open(alloc: Global, image: &[u8], handle: &mut Handle) -> i32
    ensures number { handle.old.opened ≡ 0
        → IsLoadedOrNoMemory result (loaded_file image.now None) }
    ensures file { result ≡ OK → IsOpenOver false image.now None handle.new }
    ensures same { result ≢ OK → handle.new ≡ handle.old }
    ensures refused { handle.old.opened ≢ 0 → result ≡ not_closed_number handle.old.opened }
{
    let opened = handle.state();
    if opened != 0 {
        return not_closed_number(opened);
    }
    match Bytes::copy_from_slice(alloc, image) {
        Ok(image) => open_over(alloc, image, None, handle),
        Err(_) => load_error_number(LoadError::Memory),
    }
}

// Copies of both.
fn open_copies(alloc: Global, image: &[u8], sup: &[u8], handle: &mut Handle) -> i32
    requires { handle.old.opened ≡ 0 }
    ensures number { IsLoadedOrNoMemory result (loaded_file image.now (Some sup.now)) }
    ensures file { result ≡ OK → IsOpenOver false image.now (Some sup.now) handle.new }
    ensures same { result ≢ OK → handle.new ≡ handle.old }
{
    let Ok(image) = Bytes::copy_from_slice(alloc, image) else {
        return load_error_number(LoadError::Memory);
    };
    match Bytes::copy_from_slice(alloc, sup) {
        Ok(sup) => open_over(alloc, image, Some(sup), handle),
        Err(_) => load_error_number(LoadError::Memory),
    }
}

/// Opens a handle over copies of the bytes of a file and of its supplement.
#[unsafe(no_mangle)]
pub extern "C" fn a2l_open_with_sup(
    alloc: Global,
    image: &[u8],
    sup: &[u8],
    handle: &mut Handle,
) -> i32
    ensures number { handle.old.opened ≡ 0
        → IsLoadedOrNoMemory result (loaded_file image.now (Some sup.now)) }
    ensures file { result ≡ OK → IsOpenOver false image.now (Some sup.now) handle.new }
    ensures same { result ≢ OK → handle.new ≡ handle.old }
    ensures refused { handle.old.opened ≢ 0 → result ≡ not_closed_number handle.old.opened }
{
    let opened = handle.state();
    if opened != 0 {
        return not_closed_number(opened);
    }
    open_copies(alloc, image, sup, handle)
}

/// Opens a handle over the bytes of a file that stay where they are. Nothing is copied.
#[unsafe(no_mangle)]
pub extern "C" fn a2l_open_in_place(alloc: Global, image: &'static [u8], handle: &mut Handle) -> i32
    ensures number { handle.old.opened ≡ 0
        → IsLoadedOrNoMemory result (loaded_file image.now None) }
    ensures file { result ≡ OK → IsOpenOver false image.now None handle.new }
    ensures same { result ≢ OK → handle.new ≡ handle.old }
    ensures refused { handle.old.opened ≢ 0 → result ≡ not_closed_number handle.old.opened }
{
    let opened = handle.state();
    if opened != 0 {
        return not_closed_number(opened);
    }
    open_over(alloc, Bytes::from_static(image), None, handle)
}

/// The same with a supplement, whose bytes stay too.
#[unsafe(no_mangle)]
pub extern "C" fn a2l_open_in_place_with_sup(
    alloc: Global,
    image: &'static [u8],
    sup: &'static [u8],
    handle: &mut Handle,
) -> i32
    ensures number { handle.old.opened ≡ 0
        → IsLoadedOrNoMemory result (loaded_file image.now (Some sup.now)) }
    ensures file { result ≡ OK → IsOpenOver false image.now (Some sup.now) handle.new }
    ensures same { result ≢ OK → handle.new ≡ handle.old }
    ensures refused { handle.old.opened ≢ 0 → result ≡ not_closed_number handle.old.opened }
{
    let opened = handle.state();
    if opened != 0 {
        return not_closed_number(opened);
    }
    open_over(
        alloc,
        Bytes::from_static(image),
        Some(Bytes::from_static(sup)),
        handle,
    )
}

/// Closes an open handle, and frees what it owned.
#[unsafe(no_mangle)]
pub extern "C" fn a2l_close(alloc: Global, handle: &mut Handle) -> i32
    ensures number { handle.old.opened ≡ 1 → result ≡ OK }
    ensures closed { handle.old.opened ≡ 1 → handle.new.opened ≡ 0 }
    ensures same { result ≢ OK → handle.new ≡ handle.old }
    ensures refused { handle.old.opened ≢ 1 → result ≡ refused_number handle.old.opened }
{
    let opened = handle.state();
    if opened != 1 {
        return refused_number(opened);
    }
    drop(handle.take(alloc));
    OK
}
