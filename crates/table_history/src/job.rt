// Jobs.

/// A job of a script: the lane that does it, from 1, and the line that it stands in. Recovery has lane 0 and line 0.
#[derive(Clone, Copy, Debug, PartialEq, Eq)]
pub struct Job {
    pub lane: u32,
    pub line: u32,
}
