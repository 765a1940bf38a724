// The files of file groups, and what is read of a group.
use hudi_base::{GroupRef, InstantTime, Name, Sequence};

/// A base file that completed metadata names: its group, the time of its instant, its name and its number of bytes.
#[derive(Drop)]
pub struct BasePart {
    pub group: GroupRef,
    pub time: InstantTime,
    pub name: Name,
    pub length: u64,
}

/// A log file: its group, its slice, its version in the slice, its name and its number of bytes.
#[derive(Drop)]
pub struct LogPart {
    pub group: GroupRef,
    pub slice: InstantTime,
    pub version: u64,
    pub name: Name,
    pub length: u64,
}

/// A file and how much of it is read: a base file, or a log.
#[derive(Drop)]
pub struct Part {
    pub name: Name,
    pub length: u64,
    pub base: bool,
}

/// A file group with the base files of it that completed metadata names, and its log files.
#[derive(Drop)]
pub struct GroupView {
    pub group: GroupRef,
    pub bases: Sequence<BasePart>,
    pub logs: Sequence<LogPart>,
}
