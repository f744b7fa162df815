//! What the timed parts share: readers over their bytes, checksums, and the lines that they print.

use bytes::Bytes;
use gimli_core::{EndianBytes, EndianSlice, Error, LittleEndian};
use std::io;
use std::rt::Runtime;
use std::time::Instant;

/// A checksum with one more number.
pub fn mix(sum: u64, number: u64) -> u64 {
    sum.wrapping_mul(31).wrapping_add(number)
}

/// A reader of borrowed bytes.
pub fn slice(bytes: &[u8]) -> EndianSlice<'_, LittleEndian> {
    EndianSlice::new(bytes, LittleEndian)
}

/// A reader of shared bytes, which are a copy of these.
pub fn share<R: AllocGlobal>(rt: &R, bytes: &[u8]) -> io::Result<EndianBytes<LittleEndian>> {
    let bytes = Bytes::copy_from_slice(rt.alloc(), bytes)?;
    Ok(EndianBytes::new(bytes, LittleEndian))
}

/// Prints a checksum to standard output, and the time since the start to standard error.
pub fn report<R: Runtime>(
    rt: &R,
    name: &str,
    sum: Result<u64, Error>,
    start: Instant,
) -> io::Result<()> {
    let took = start.elapsed(rt)?.as_micros();
    match sum {
        Ok(sum) => println!(rt; "{name}: {sum:016x}")?,
        Err(fault) => println!(rt; "{name}: {fault}")?,
    }
    eprintln!(rt; "{name}: {took} us")
}
