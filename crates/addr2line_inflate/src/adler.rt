//! The Adler-32 sum (RFC 1950, 2.2).

ghost use Rattle.std.specs.Prelude.{◌≡◌, ◌%◌, ◌<◌, ◌≤◌, length};
ghost use Rattle.addr2line_inflate.specs.Sums.{adler32, first_sum, second_sum};

use crate::constants::{ADLER_BASE, SECOND_SUM_WEIGHT};

// How many bytes are added before the sums are reduced.
const PART: usize = 65536;

// The two sums, modulo ADLER_BASE.
#[derive(Clone, Copy, Drop)]
struct Sums {
    first: u64,
    second: u64,
}

pub fn adler32(text: &[u8]) -> u32
    ensures { result ≡ adler32 text.now }
{
    let mut sums = Sums {
        first: 1,
        second: 0,
    };
    let mut rest = text;
    while rest.len() > PART {
        let (part, others) = rest.split_at(PART);
        sums = sums.after(part);
        rest = others;
    }
    let sums = sums.after(rest);
    (sums.second * SECOND_SUM_WEIGHT + sums.first) as u32
}

impl Sums {
    // The sums after more bytes.
    fn after(self, part: &[u8]) -> Sums
        requires few { length part.now ≤ PART }
        requires first { self.first < ADLER_BASE }
        requires second { self.second < ADLER_BASE }
        ensures first { result.first ≡ first_sum self.first part.now % ADLER_BASE }
        ensures second { result.second ≡ second_sum self.first self.second part.now % ADLER_BASE }
    {
        let mut first = self.first;
        let mut second = self.second;
        for byte in part {
            first += u64::from(*byte);
            second += first;
        }
        Sums {
            first: first % ADLER_BASE,
            second: second % ADLER_BASE,
        }
    }
}
