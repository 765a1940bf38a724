// The columns of a base file.
use crate::{Bytes, Sequence};

/// A leaf column, named as in Parquet's footer.
#[derive(Drop)]
pub struct Column {
    /// Its name, which is its whole path.
    pub name: Bytes,
    /// Its physical type: 0 boolean, 1 of 32 bits, 2 of 64 bits, 6 byte array.
    pub physical: i32,
    /// Whether a cell of it may be null.
    pub optional: bool,
    /// Whether its byte arrays are texts in UTF-8.
    pub utf8: bool,
}

/// Columns in their order.
pub type Columns = Sequence<Column>;
