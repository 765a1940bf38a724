//! The blocks of a log file of a merge-on-read table: a subset of the log format of Apache Hudi, in which each
//! block has one form (docs/formats/log-blocks.md).
//!
//! Its contract: what is written is that form, what is read whole is that form, and of any other bytes it is said
//! whether the block is cut off or at which offset it is bad. It stands on `hudi_base` for bytes and times, on
//! `byte_fields` for fields, and on `byteorder` for the order of bytes.
#![tactic(auto)]

mod block;
mod format;
mod header;
mod laws;
mod parts;
mod reading;
mod writing;

pub use block::{Block, BlockError, BlockRead};
pub use laws::{cut_is_torn, later_bytes, one_form, when_torn, written_is_read};
pub use reading::read_block;
pub use writing::write_block;
