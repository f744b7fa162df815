//! Copies of loads.

ghost use Rattle.std.specs.Prelude.{Ok};
ghost use Rattle.addr2line_functions.specs.Calls.{ReturnsOrNoMemory};

use crate::load::SplitDwarfLoad;
use addr2line_functions::{Error, Reader, share};
use addr2line_root::copy_of;

impl<R: Reader> SplitDwarfLoad<R> {
    /// The same load, over the same bytes. Refused only when out of memory.
    pub fn copy(&self) -> Result<Self, Error>
        ensures { ReturnsOrNoMemory result (Ok self.now) }
    {
        let comp_dir = copy_of(&self.comp_dir)?;
        let path = copy_of(&self.path)?;
        let parent = share(&self.parent)?;
        Ok(SplitDwarfLoad {
            dwo_id: self.dwo_id,
            comp_dir,
            path,
            parent,
        })
    }
}
