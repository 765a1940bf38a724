// What a writer is given.
use hudi_base::{Sequence, Value};
use table_jobs::DelKeys;

/// A row of an upsert: a value of the table's schema, or the place of the first field of the schema that it doesn't fit.
#[derive(Drop)]
pub enum PutRow {
    Fits(Value),
    Mismatch(u32),
}

/// The rows of an upsert, in their order.
pub type PutRows = Sequence<PutRow>;

/// The rows of one upsert or the keys of one delete, in order.
#[derive(Drop)]
pub enum Batch {
    Puts(PutRows),
    Dels(DelKeys),
}
