//! Opening by flags.

ghost use Rattle.std.specs.Prelude.{◌≡◌, ◌≢◌, ◌<◌, ◌≤◌, true, IfOk, IsOk};
ghost use Rattle.addr2line_loader.specs.DecompressedFiles.{decompressed_file};
ghost use Rattle.addr2line_c.specs.Numbers.{IsDecompressedOrNoMemory, not_closed_number};
ghost use Rattle.addr2line_c.specs.OpenHandles.{IsOpenOver, file_over};
ghost use Rattle.addr2line_c.specs.OpenFlags.{has_flag, sup_by};
ghost use Rattle.addr2line_c.specs.declared.numbers.TheConstants.{OK};

use crate::handle::Handle;
use crate::numbers::{UNKNOWN_FLAG, decompress_error_number, load_error_number};
use crate::open_file::OpenFile;
use crate::opening::{not_closed_number, open_file, open_over};
use addr2line_split::LoadError;
use bytes::Bytes;
use std::alloc::{AllocError, Global};

/// The bytes stay where they are.
pub const IN_PLACE: u32 = 1;

/// There is a supplement.
pub const SUP: u32 = 2;

/// Compressed sections are decompressed.
pub const DECOMPRESS: u32 = 4;

// The first number with another flag.
const FLAGS_END: u32 = 8;

// Whether a number has a flag.
fn has_flag(flags: u32, flag: u32) -> bool
    ensures { result ≡ has_flag flags flag }
{
    flags & flag != 0
}

// The bytes of a file, where they are or copied. In place that takes no memory.
fn shared(alloc: Global, bytes: &'static [u8], in_place: bool) -> Result<Bytes, AllocError>
    ensures bytes { IfOk result (λ b. b ≡ bytes.now) }
    ensures free { in_place ≡ true → IsOk result }
{
    if in_place {
        Ok(Bytes::from_static(bytes))
    } else {
        Bytes::copy_from_slice(alloc, bytes)
    }
}

// Those of a supplement, if the flags have one.
fn shared_sup(alloc: Global, sup: &'static [u8], flags: u32) -> Result<Option<Bytes>, AllocError>
    ensures { IfOk result (λ b. b ≡ sup_by flags sup.now) }
{
    if has_flag(flags, SUP) {
        Ok(Some(shared(alloc, sup, has_flag(flags, IN_PLACE))?))
    } else {
        Ok(None)
    }
}

// Opens a closed handle over bytes that are decompressed, if they need it.
fn open_decompressed(
    alloc: Global,
    image: Bytes,
    supplement: Option<Bytes>,
    handle: &mut Handle,
) -> i32
    requires { handle.old.opened ≡ 0 }
    ensures number { IsDecompressedOrNoMemory result (decompressed_file image supplement) }
    ensures file { result ≡ OK → IsOpenOver true image supplement handle.new }
    ensures same { result ≢ OK → handle.new ≡ handle.old }
{
    match OpenFile::load_decompressed(alloc, image, supplement) {
        Ok(file) => open_file(alloc, file, handle),
        Err(error) => decompress_error_number(error),
    }
}

// Opens a closed handle over bytes that it shares, decompressed or as they are.
fn open_either(
    alloc: Global,
    image: Bytes,
    supplement: Option<Bytes>,
    decompress: bool,
    handle: &mut Handle,
) -> i32
    requires { handle.old.opened ≡ 0 }
    ensures number { IsDecompressedOrNoMemory result (file_over decompress image supplement) }
    ensures file { result ≡ OK → IsOpenOver decompress image supplement handle.new }
    ensures same { result ≢ OK → handle.new ≡ handle.old }
{
    if decompress {
        open_decompressed(alloc, image, supplement, handle)
    } else {
        open_over(alloc, image, supplement, handle)
    }
}

// Opens a closed handle as flags say, all of which are known.
fn open_by(
    alloc: Global,
    image: &'static [u8],
    sup: &'static [u8],
    flags: u32,
    handle: &mut Handle,
) -> i32
    requires { handle.old.opened ≡ 0 }
    ensures number { IsDecompressedOrNoMemory result
        (file_over (has_flag flags DECOMPRESS) image.now (sup_by flags sup.now)) }
    ensures file { result ≡ OK
        → IsOpenOver (has_flag flags DECOMPRESS) image.now (sup_by flags sup.now) handle.new }
    ensures same { result ≢ OK → handle.new ≡ handle.old }
{
    let Ok(image) = shared(alloc, image, has_flag(flags, IN_PLACE)) else {
        return load_error_number(LoadError::Memory);
    };
    match shared_sup(alloc, sup, flags) {
        Ok(sup) => open_either(alloc, image, sup, has_flag(flags, DECOMPRESS), handle),
        Err(_) => load_error_number(LoadError::Memory),
    }
}

/// Opens a handle over the bytes of a file, and of a supplement, by flags. Where they are copied,
/// they are read during the call alone.
#[unsafe(no_mangle)]
pub extern "C" fn a2l_open_with(
    alloc: Global,
    image: &'static [u8],
    sup: &'static [u8],
    flags: u32,
    handle: &mut Handle,
) -> i32
    ensures number { handle.old.opened ≡ 0 → flags < FLAGS_END
        → IsDecompressedOrNoMemory result
        (file_over (has_flag flags DECOMPRESS) image.now (sup_by flags sup.now)) }
    ensures file { result ≡ OK
        → IsOpenOver (has_flag flags DECOMPRESS) image.now (sup_by flags sup.now) handle.new }
    ensures same { result ≢ OK → handle.new ≡ handle.old }
    ensures unknown { handle.old.opened ≡ 0 → FLAGS_END ≤ flags → result ≡ UNKNOWN_FLAG }
    ensures refused { handle.old.opened ≢ 0 → result ≡ not_closed_number handle.old.opened }
{
    let opened = handle.state();
    if opened != 0 {
        return not_closed_number(opened);
    }
    if flags >= FLAGS_END {
        return UNKNOWN_FLAG;
    }
    open_by(alloc, image, sup, flags, handle)
}
