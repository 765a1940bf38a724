// What changes the files of a store.
use crate::{Bytes, Name};

/// An operation that changes the files of a store: a whole file is made, bytes are added at the end of a file
/// (which is made where it is absent), or a file is removed.
#[derive(Drop)]
pub enum Operation {
    Create(Name, Bytes),
    Append(Name, Bytes),
    Remove(Name),
}
