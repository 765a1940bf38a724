// What a job asks of a table.
use hudi_base::{Bytes, InstantTime, Name, Sequence};

/// The hash slots of a batch's keys in one partition.
#[derive(Drop)]
pub struct PartitionSlots {
    pub partition: Name,
    pub slots: Sequence<u16>,
}

/// Whose files a job reads: those of its pin's view.
#[derive(Clone, Copy, Debug, PartialEq, Eq)]
pub enum Reader {
    Pin(u64),
}

/// A step of a job. Each does at most one operation on the store.
#[derive(Drop)]
pub enum Step {
    /// Draws a time and makes an instant of it, a requested deltacommit.
    Begin {},
    /// Makes it inflight, with the groups of these slots as its targets.
    Enter {
        t: InstantTime,
        slots: Sequence<PartitionSlots>,
    },
    /// Appends a block of so many writes to the log of a target, by its number from 0.
    Append {
        t: InstantTime,
        target: u32,
        writes: u32,
        bytes: Bytes,
    },
    /// Completes it.
    Finish {
        t: InstantTime,
        checkpoint: Option<u64>,
    },
    /// Pins the files of the latest instant, or of a named one; of base files alone, where only these are read.
    Pin {
        at: Option<InstantTime>,
        bases_only: bool,
    },
    /// Lets a pin go.
    Unpin {
        pin: u64,
    },
    /// Reads a piece of a file, by the file's number from 0.
    Read {
        from: Reader,
        file: u32,
        at: u64,
        len: u64,
    },
    /// Leaves an instant pending, without an owner.
    Abandon {
        t: InstantTime,
    },
}
