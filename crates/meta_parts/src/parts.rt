// The parts of metadata that are objects of their own.
use hudi_base::{GroupRef, Name, Sequence};

/// A file by its name, and its number of bytes.
#[derive(Drop)]
pub struct NamedFile {
    pub name: Name,
    pub length: u64,
}

/// A file group as a plan finds it: its base file, where it has one, and its logs.
#[derive(Drop)]
pub struct PlanGroup {
    pub group: GroupRef,
    pub base: Option<NamedFile>,
    pub logs: Sequence<NamedFile>,
}

/// A base file that was made: its group, its name, its number of bytes and its number of rows.
#[derive(Drop)]
pub struct BaseMade {
    pub group: GroupRef,
    pub name: Name,
    pub length: u64,
    pub rows: u64,
}
