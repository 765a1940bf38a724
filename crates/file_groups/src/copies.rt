// Second owners of parts.
ghost use Rattle.std.specs.Prelude.{◌≡◌, IfOk};

use crate::{BasePart, LogPart};
use std::alloc::{AllocError, Global};

impl BasePart {
    /// A second owner of the same names. The only error is want of memory.
    pub fn copy(&self, alloc: Global) -> Result<BasePart, AllocError>
        ensures { IfOk result (λ copied. copied ≡ self.now) }
    {
        Ok(BasePart {
            group: self.group.copy(alloc)?,
            time: self.time,
            name: self.name.copy(alloc)?,
            length: self.length,
        })
    }
}

impl LogPart {
    /// A second owner of the same names. The only error is want of memory.
    pub fn copy(&self, alloc: Global) -> Result<LogPart, AllocError>
        ensures { IfOk result (λ copied. copied ≡ self.now) }
    {
        Ok(LogPart {
            group: self.group.copy(alloc)?,
            slice: self.slice,
            version: self.version,
            name: self.name.copy(alloc)?,
            length: self.length,
        })
    }
}
