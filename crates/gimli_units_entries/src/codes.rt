//! The codes of entries.

ghost use Rattle.std.specs.Prelude.{◌<◌, ◌≤◌, IfOk};
ghost use Rattle.gimli_core_base.specs.View.{after, bytes_left};
ghost use Rattle.gimli_core_base.specs.Calls.{ReturnsAs};
ghost use Rattle.gimli_core_base.specs.NumberParsers.{unsigned};

use gimli_core_base::constants::ReaderOffsetId;
use gimli_core_base::error::Error;
use gimli_core_base::leb128::{self, Fault};
use gimli_units_headers::Reader;

// The next code, and how many bytes it takes: one in nearly all tables.
#[inline(always)]
#[tactic(auto, unfolding(gimli_core_base::specs::NumberParsers::unsigned))]
pub(crate) fn code_at<R: Reader>(input: &R) -> Result<(u64, usize), Error>
    ensures value { ReturnsAs (λ p. (p.0, after p.1 (R.view input.now))) result
        (unsigned (R.view input.now)) }
    ensures some { IfOk result (λ p. 0 < p.1) }
    ensures within { IfOk result (λ p. p.1 ≤ bytes_left (R.view input.now)) }
{
    match input.as_bytes() {
        [code, ..] if *code < 128 => Ok((u64::from(*code), 1)),
        _ => long_code_at(input),
    }
}

// The next code, of any number of bytes, and how many it takes.
#[tactic(auto, unfolding(gimli_core_base::specs::NumberParsers::unsigned))]
fn long_code_at<R: Reader>(input: &R) -> Result<(u64, usize), Error>
    ensures value { ReturnsAs (λ p. (p.0, after p.1 (R.view input.now))) result
        (unsigned (R.view input.now)) }
    ensures some { IfOk result (λ p. 0 < p.1) }
    ensures within { IfOk result (λ p. p.1 ≤ bytes_left (R.view input.now)) }
{
    let bytes = input.as_bytes();
    match leb128::unsigned(bytes) {
        Ok(found) => Ok(found),
        Err(Fault::Cut) => {
            let end = input.offset_id().0 + bytes.len() as u64;
            Err(Error::UnexpectedEof(ReaderOffsetId(end)))
        }
        Err(Fault::Bad) => Err(Error::BadUnsignedLeb128),
    }
}
