// Entries of a history.
use crate::{Job, Reply, Step};

/// A step of a job with its reply.
#[derive(Drop)]
pub struct Entry {
    pub job: Job,
    pub step: Step,
    pub reply: Reply,
}

/// An entry as the journal prints it: the job, and numbers for the step, the reply and two of the reply's values.
#[derive(Clone, Copy, Debug, PartialEq, Eq)]
pub struct Mark {
    pub lane: u32,
    pub line: u32,
    pub step: u8,
    pub reply: u8,
    pub a: u64,
    pub b: u64,
}
