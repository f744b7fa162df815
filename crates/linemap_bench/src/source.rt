//! Bytes by a fixed rule, the same as the plain loops of `bench/` generate.

use std::alloc::AllocError;

/// A linear congruential generator, of whose states the highest byte is used.
#[derive(Debug, Drop)]
pub struct Source {
    state: u64,
}

impl Source {
    /// A generator that begins anew: each gives the same bytes.
    pub fn new() -> Source {
        Source { state: 1 }
    }

    /// The next byte.
    pub fn next(&mut self) -> u8 {
        self.state = self
            .state
            .wrapping_mul(6364136223846793005)
            .wrapping_add(1442695040888963407);
        self.state.to_be_bytes()[0]
    }

    /// Appends the next bytes.
    pub fn bytes(&mut self, count: u8, bytes: &mut Vec<u8>) -> Result<(), AllocError> {
        for _ in 0..count {
            bytes.push(self.next())?;
        }
        Ok(())
    }

    /// Appends a LEB128 number of one or two bytes.
    pub fn number(&mut self, bytes: &mut Vec<u8>) -> Result<(), AllocError> {
        let first = self.next();
        bytes.push(first)?;
        if first >= 0x80 {
            bytes.push(self.next() & 0x7f)?;
        }
        Ok(())
    }

    /// Appends a block of at most four bytes, after its length.
    pub fn block(&mut self, bytes: &mut Vec<u8>) -> Result<(), AllocError> {
        let length = self.next() % 4 + 1;
        bytes.push(length)?;
        self.bytes(length, bytes)
    }

    /// Appends a text of at most three bytes, and its zero byte.
    pub fn text(&mut self, bytes: &mut Vec<u8>) -> Result<(), AllocError> {
        for _ in 0..self.next() % 4 {
            bytes.push(self.next() | 1)?;
        }
        bytes.push(0)?;
        Ok(())
    }
}
