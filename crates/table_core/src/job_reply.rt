// What jobs answer.
use hudi_base::{InstantTime, Name};
use payload_merge::Rows;
use table_history::Cause;

/// Why a row, or a key to delete, is refused.
#[derive(Clone, Copy)]
pub enum RowCause {
    /// The schema's field at this place, from 0, is the first that the row doesn't fit. Where it fits all of them and
    /// has another member, it is the number of fields.
    Mismatch(u32),
    /// The record key is empty or longer than 1,000 bytes.
    NoKey,
    /// The partition is no path of a folder in the table.
    BadPartition,
    /// The ordering field is null.
    NoOrdering,
    /// The body is longer than 65,536 bytes.
    TooLarge,
}

/// The answer of a job: of a writer the instant that it committed, of a query its instant, none where nothing is
/// completed, and the rows; or why it ended before.
#[derive(Drop)]
pub enum JobReply {
    Committed(InstantTime),
    /// The first row or key of the batch that is refused, by its place from 0, and why. Nothing was done.
    BadRow(u32, RowCause),
    Rows(Option<InstantTime>, Rows),
    /// The named instant isn't completed.
    NotCompleted(InstantTime),
    /// No time is left to be drawn.
    TimeOver,
    /// The store failed.
    Fault,
    /// A file, what was wrong with it, and the offset in it; 0 where a step found it.
    Damaged(Name, Cause, u64),
    Memory,
}
