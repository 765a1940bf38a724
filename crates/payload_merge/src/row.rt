// Rows and what is written of them.
use hudi_base::{Bytes, InstantTime, Name, Sequence};

/// A row of a table. Its partition and its key name it: a table has at most one row of each such pair.
#[derive(Drop)]
pub struct Row {
    /// The partition that it lies in.
    pub partition: Name,
    /// Its record key, which names it in its partition.
    pub key: Bytes,
    /// Its ordering value. Of two writes to one key the one of the greater rank wins, and at equal ranks the later.
    pub rank: i64,
    /// The instant that wrote it.
    pub commit: InstantTime,
    /// Its place among the writes of that instant, from 0.
    pub seq: u32,
    /// The values of its fields.
    pub body: Bytes,
}

/// One write to one key.
#[derive(Drop)]
pub enum Write {
    /// A row that is inserted, or that replaces the present one.
    Put(Row),
    /// The row of a key is taken out.
    Del {
        partition: Name,
        key: Bytes,
        rank: i64,
    },
}

/// Rows, as in a batch or in the order of their keys.
pub type Rows = Sequence<Row>;

/// Writes, in the order in which they take effect.
pub type Writes = Sequence<Write>;
