//! Images, decompressed.

ghost use Rattle.std.specs.Prelude.{◌≡◌, ◌≤◌, length, option_map, IfOk};
ghost use Rattle.addr2line_decompress.specs.declared.sections.DebugSections.TheVariants.{All};
ghost use Rattle.addr2line_decompress.specs.CompressedSections.{new_names};
ghost use Rattle.addr2line_decompress.specs.DecompressResults.{DecompressesAsOrNoMemory};
ghost use Rattle.addr2line_decompress.specs.ImageTables.{file_bytes, table_end};
ghost use Rattle.addr2line_decompress.specs.Decompression.{AreBytes, Decompresses};
ghost use Rattle.addr2line_decompress.specs.DecompressedBytes.{new_image, new_image_if_any, decompressed};

use crate::bytes_after::bytes_after;
use crate::error::{DecompressError, image_refused};
use crate::sections::DebugSections;
use crate::table::ImageTable;
use bytes::Bytes;
use std::alloc::Global;

/// An ELF image with the same sections, addresses and symbols, in which no section of debugging
/// information is compressed: those that are (System V ABI, "Section Compression") have the text of
/// their stream. So have those in GNU's old form: a section `.zdebug_..` becomes `.debug_..`, if no
/// section has that name, and is the text of its stream, or, where it doesn't begin with `ZLIB`,
/// what it was. The bytes of the file stay where they are, apart from the section headers, and the
/// texts follow them, and the names of all sections if some are new. If nothing is compressed, the
/// image itself. Allocates the image, the names, and one text at a time. The time grows with the
/// bytes of the image and of the texts, and with the number of sections times that of sections
/// `.zdebug_..`: for each of these it looks a few times through the names of all sections.
pub fn decompressed(alloc: Global, image: Bytes) -> Result<Bytes, DecompressError>
    ensures bytes { DecompressesAsOrNoMemory (λ after. after) result (decompressed All image) }
    ensures image { IfOk result (λ after. Decompresses All image after) }
{
    decompressed_sections(alloc, image, DebugSections::All)
}

/// The same, where some sections are decompressed and the others stay as they are.
pub fn decompressed_sections(
    alloc: Global,
    image: Bytes,
    which: DebugSections,
) -> Result<Bytes, DecompressError>
    ensures bytes { DecompressesAsOrNoMemory (λ after. after) result (decompressed which image) }
    ensures image { IfOk result (λ after. Decompresses which image after) }
{
    all_bytes(image.as_slice());
    match new_image_if_any(alloc, &image, which)? {
        Some(bytes) => Ok(Bytes::from_vec(bytes)?),
        None => Ok(image),
    }
}

// The numbers of a slice are bytes. It does nothing; its contract is a fact for proofs.
fn all_bytes(bytes: &[u8])
    ensures { AreBytes bytes.now }
{
    let _ = bytes;
}

// The bytes after decompression; none where nothing is compressed.
fn new_image_if_any(
    alloc: Global,
    image: &Bytes,
    which: DebugSections,
) -> Result<Option<Vec<u8>>, DecompressError>
    ensures { DecompressesAsOrNoMemory (λ found. option_map (λ bytes. bytes.items) found) result
        (new_image_if_any which image.now) }
{
    let table = match ImageTable::read(alloc, image) {
        Ok(table) => table,
        Err(error) => return Err(image_refused(error)),
    };
    if !table.has_compressed(alloc, which)? {
        return Ok(None);
    }
    Ok(Some(new_image(alloc, &table, which)?))
}

// The bytes of an image after decompression.
fn new_image(
    alloc: Global,
    table: &ImageTable,
    which: DebugSections,
) -> Result<Vec<u8>, DecompressError>
    requires { table_end table.now ≤ length (file_bytes table.now) }
    ensures { DecompressesAsOrNoMemory (λ bytes. bytes.items) result (new_image which table.now) }
{
    match table.new_names(alloc, which)? {
        Some(names) => image_with(alloc, table, which, Some(&names)),
        None => image_with(alloc, table, which, None),
    }
}

// The same, where these are the names of all sections, if some are new.
fn image_with(
    alloc: Global,
    table: &ImageTable,
    which: DebugSections,
    names: Option<&[u8]>,
) -> Result<Vec<u8>, DecompressError>
    requires room { table_end table.now ≤ length (file_bytes table.now) }
    requires names { new_names which table.now.image ≡ option_map (λ n. n.now) names }
    ensures { DecompressesAsOrNoMemory (λ bytes. bytes.items) result (new_image which table.now) }
{
    if table.offset() < table.file_header_size() {
        return Err(DecompressError::OverlappingHeaders);
    }
    table.refuse_all_names(alloc, which)?;
    table.refuse_new_names(names)?;
    let start = table.names_start(names);
    let sections = table.sections(alloc, which, names, start)?;
    bytes_after(alloc, table, &sections)
}
