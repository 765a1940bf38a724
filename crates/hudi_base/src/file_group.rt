// Where a row lives: a partition is cut into ranges of hash slots, and each range is a file group.
ghost use Rattle.std.specs.Prelude.{◌≡◌, IfOk};

use crate::{InstantTime, Name};
use std::alloc::{AllocError, Global};

/// The hash slots from `lo` to `hi`, both included.
#[derive(Clone, Copy, Debug, PartialEq, Eq)]
pub struct SlotRange {
    pub lo: u16,
    pub hi: u16,
}

/// A file group: the keys of a partition whose hash slots are from `lo` to `hi`, both included. `born` is the time
/// of the replacecommit that made it, or the first time for a group that the table began with.
#[derive(PartialEq, Eq, PartialOrd, Ord, Drop)]
pub struct GroupRef {
    pub partition: Name,
    pub lo: u16,
    pub hi: u16,
    pub born: InstantTime,
}

impl GroupRef {
    /// A second owner of the same names. The only error is want of memory.
    pub fn copy(&self, alloc: Global) -> Result<GroupRef, AllocError>
        ensures { IfOk result (λ copied. copied ≡ self.now) }
    {
        Ok(GroupRef {
            partition: self.partition.copy(alloc)?,
            lo: self.lo,
            hi: self.hi,
            born: self.born,
        })
    }
}

/// A file group and the file slice in it that new blocks go to.
#[derive(PartialEq, Eq, PartialOrd, Ord, Drop)]
pub struct Target {
    pub group: GroupRef,
    pub slice: InstantTime,
}

impl Target {
    /// A second owner of the same names. The only error is want of memory.
    pub fn copy(&self, alloc: Global) -> Result<Target, AllocError>
        ensures { IfOk result (λ copied. copied ≡ self.now) }
    {
        Ok(Target {
            group: self.group.copy(alloc)?,
            slice: self.slice,
        })
    }
}
