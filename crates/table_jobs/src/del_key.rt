// Keys to delete.
use hudi_base::{Bytes, Name, Sequence};

/// A key to delete, as any texts may say it.
#[derive(Drop)]
pub struct DelKey {
    pub partition: Name,
    pub key: Bytes,
    /// The rank, where one is told.
    pub rank: Option<i64>,
}

/// Keys to delete, in their order.
pub type DelKeys = Sequence<DelKey>;
