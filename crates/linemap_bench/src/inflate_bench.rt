//! Decompresses zlib streams, and prints their texts.

use addr2line_inflate::inflate;
use gimli_core::{Endianity, LittleEndian};
use std::io::Write;
use std::rt::Runtime;
use std::time::Instant;
use std::{fs, io};

// The bytes of a number in the file.
const NUMBER: usize = 8;

// A stream, and the size of its text.
#[derive(Drop)]
struct Stream<'a> {
    size: u64,
    bytes: &'a [u8],
}

/// Decompresses each stream of a file this often, and prints `text` and its size, and then the
/// text, or why the stream is refused. Before a stream the file has the size of its text and its
/// own, each in eight bytes, the least significant first.
pub fn time<R: Runtime + AllocGlobal>(rt: &R, rounds: usize, path: &str) -> io::Result<()> {
    let file = fs::read(rt, path)?;
    let mut rest: &[u8] = &file;
    for _ in 0..file.len() {
        match split_stream(rest) {
            Some((stream, others)) => {
                time_stream(rt, rounds, &stream)?;
                rest = others;
            }
            None => break,
        }
    }
    Ok(())
}

fn time_stream<R: Runtime + AllocGlobal>(
    rt: &R,
    rounds: usize,
    stream: &Stream<'_>,
) -> io::Result<()> {
    let start = Instant::now(rt)?;
    for _ in 1..rounds {
        let _ = inflate(rt.alloc(), stream.bytes, stream.size);
    }
    let inflated = inflate(rt.alloc(), stream.bytes, stream.size);
    let took = start.elapsed(rt)?.as_micros();
    eprintln!(rt; "inflate: {took} us")?;
    match inflated {
        Ok(text) => {
            println!(rt; "text {}", text.len())?;
            io::writer(rt).write_all(&text)
        }
        Err(refusal) => println!(rt; "refused: {refusal}"),
    }
}

// The first stream of a file, and what follows it.
fn split_stream(file: &[u8]) -> Option<(Stream<'_>, &[u8])> {
    let (size, rest) = split_number(file)?;
    let (len, rest) = split_number(rest)?;
    if (rest.len() as u64) < len {
        return None;
    }
    let (bytes, rest) = rest.split_at(len as usize);
    Some((Stream { size, bytes }, rest))
}

fn split_number(bytes: &[u8]) -> Option<(u64, &[u8])> {
    if bytes.len() < NUMBER {
        return None;
    }
    let (number, rest) = bytes.split_at(NUMBER);
    Some((LittleEndian.read_u64(number), rest))
}
