//! The contents of log blocks: what all of them begin with, and the deletes of delete blocks.
//!
//! Its contract: what is written of deletes is read back as these, in their order; any content is a reading of exactly one
//! list of deletes, or is refused at the first byte of what can't be read. It stands on `payload_merge` for writes and on
//! `byte_fields` for fields.
#![tactic(auto)]

mod content_head;
mod deletes;
mod read_error;

pub use content_head::{count_at, put_head};
pub use deletes::{delete_block, delete_writes};
pub use read_error::ReadError;
