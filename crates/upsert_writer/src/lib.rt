//! The writer of a table: one batch of rows, or of keys to delete, becomes one deltacommit.
//!
//! Its contract: over any table that answers steps, and whatever other jobs' entries stand between its own, a batch with a
//! row or key that is refused is answered by the first of them, and nothing is done. Else the writer keeps the law of
//! jobs, each of its blocks holds in batch order the writes of the batch that lie in the block's file group, and its answer
//! is the one that its own entries tell. It stands on `table_history` for steps, on `log_block` and `block_contents` for
//! blocks, on `key_index` for slots and on `table_jobs` for the codec of a table.
#![tactic(auto)]

mod batch;
mod blocks;
mod laws;
mod making;
mod sharing;
mod slots;
mod work;
mod writer;
mod writes;

pub use batch::{Batch, PutRow, PutRows};
pub use laws::batches_are_written_whole;
pub use work::AnyBatch;
pub use writer::write_batch;
