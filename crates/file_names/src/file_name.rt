// Which files a table has.
use hudi_base::{GroupRef, InstantTime};

/// What an instant does: Hudi's deltacommit, compaction, replacecommit, clean and rollback.
#[derive(Clone, Copy, Debug, PartialEq, Eq)]
pub enum Action {
    Delta,
    Compaction,
    Replace,
    Clean,
    Rollback,
}

/// How far an instant is.
#[derive(Clone, Copy, Debug, PartialEq, Eq)]
pub enum State {
    Requested,
    Inflight,
    Completed,
}

/// Which attempt made a file: the session of the table, and the number of the file among those that the session tried
/// to make.
#[derive(Clone, Copy, Debug, PartialEq, Eq)]
pub struct Token {
    pub session: u64,
    pub attempt: u64,
}

/// A file of a table, as its name tells it.
#[derive(Drop)]
pub enum FileName {
    /// A file of the timeline: the instant's time, its action, and the state that the file marks.
    Instant(InstantTime, Action, State),
    /// A base file of a group: who made it, and its instant.
    Base(GroupRef, Token, InstantTime),
    /// A log file of a group: its slice, its version in the slice (from 1), and who made it.
    Log(GroupRef, InstantTime, u64, Token),
    /// The table's properties.
    Properties,
    /// No file of the table.
    Other,
}
