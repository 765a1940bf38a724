// What a query reads.
use crate::Job;
use hudi_base::{GroupRef, InstantTime, Name, Sequence};

/// A file and how much of it is read: a base file, or a log.
#[derive(Drop)]
pub struct Part {
    pub name: Name,
    pub length: u64,
    pub base: bool,
}

/// A file group and its files, in the order in which they are merged.
#[derive(Drop)]
pub struct GroupParts {
    pub group: GroupRef,
    pub parts: Sequence<Part>,
}

/// What a pin keeps: its number, its instant (none where nothing is completed), the groups that have files, and the
/// deltacommits that were completed up to the instant, in order of time. The files are numbered from 0 in this order.
#[derive(Drop)]
pub struct View {
    pub pin: u64,
    pub t: Option<InstantTime>,
    pub groups: Sequence<GroupParts>,
    pub completed: Sequence<InstantTime>,
}

/// A live pin: whose it is, and its view.
#[derive(Drop)]
pub struct LivePin {
    pub job: Job,
    pub view: View,
}
