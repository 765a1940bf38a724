// Log files.

/// A log file of a slice: its version, which session and attempt of it made the file, and how much of it is known.
#[derive(Clone, Copy, Debug, PartialEq, Eq)]
pub struct LogFile {
    pub version: u64,
    pub session: u64,
    pub attempt: u64,
    pub length: u64,
}
