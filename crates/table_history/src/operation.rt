// What a step does to the store.
use crate::Reply;
use hudi_base::{Bytes, Name};

/// The one operation of a step on the store. A piece is read from an offset on, so many bytes.
#[derive(Drop)]
pub enum Op {
    Nothing,
    Create(Name, Bytes),
    Append(Name, Bytes),
    Remove(Name),
    Read(Name, u64, u64),
}

/// A step's reply in case its operation succeeds, and the operation.
#[derive(Drop)]
pub struct Decision {
    pub reply: Reply,
    pub op: Op,
}
