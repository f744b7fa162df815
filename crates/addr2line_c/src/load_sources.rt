//! Where the split files of loads come from: the caller brings one, or none.

use addr2line_context::Error;
use addr2line_split::SplitSource;
use bytes::Bytes;

/// No files.
#[derive(Drop)]
pub struct NoFiles {}

impl SplitSource for NoFiles {
    ghost use Rattle.addr2line_c.specs.Sources.{answers_none};

    ghost answers = { answers_none };

    fn get(&mut self, _directory: &[u8], _name: &[u8]) -> Result<Option<Bytes>, Error> {
        Ok(None)
    }
}

/// The bytes of one file, whatever its name.
#[derive(Drop)]
pub struct OneFile {
    pub bytes: Bytes,
}

impl SplitSource for OneFile {
    ghost use Rattle.addr2line_c.specs.Sources.{answers_one};

    ghost answers = { answers_one };

    fn get(&mut self, _directory: &[u8], _name: &[u8]) -> Result<Option<Bytes>, Error> {
        Ok(Some(self.bytes.clone()?))
    }
}
