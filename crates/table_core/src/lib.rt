//! The control tables of a table: what its next steps depend on, kept so that no step walks its history.
//!
//! Its contract: over every history of which the tables are the control, `decide` answers the machine's reply and
//! operation, and `take` leads to the control of the history with one entry more. It stands on `table_history` for the
//! definitions, on `file_names` for the names of files and on `commit_meta` for the texts of metadata.
#![tactic(auto)]

mod control;
mod deciding;
mod job_reply;
mod lists;
mod marks;
mod names;
mod reserving;
mod rooms;
mod slice_logs;
mod taking;
mod tiles;
mod times;
mod viewing;
mod written;

pub use control::Control;
pub use job_reply::{JobReply, RowCause};
pub use marks::mark;
