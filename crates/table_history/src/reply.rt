// What a table answers.
use crate::View;
use hudi_base::{Bytes, InstantTime, Name, Sequence, Target};

/// What was wrong with a file: it exists though it is new, it is missing, it is too short, or its bytes are no log
/// text, no base file or no content.
#[derive(Clone, Copy, Debug, PartialEq, Eq)]
pub enum Cause {
    Exists,
    Missing,
    Short,
    Log,
    Base,
    Content,
}

/// A step's reply.
#[derive(Drop)]
pub enum Reply {
    Began(InstantTime),
    Entered(Sequence<Target>),
    /// The log's version, and its known length before the append.
    Placed(u64, u64),
    Completed(InstantTime),
    Pinned(View),
    Piece(Bytes),
    NotCompleted(InstantTime),
    TimeOver,
    Done,
    /// The store failed.
    Fault,
    Damaged(Name, Cause),
    /// Want of memory. The step changed nothing and is no entry.
    Memory,
}
