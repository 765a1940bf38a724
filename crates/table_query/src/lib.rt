//! Queries of a table. For now there is one, the snapshot.
//!
//! Its contract: over any table that answers steps, and whatever other jobs' entries stand between its own, a query keeps
//! the law of jobs, lets its pin go before it ends, and answers what its steps told or what the bytes that it read hold:
//! the rows that the writes of the view's completed instants leave, or the first part that has no reading. It stands on
//! `table_history` for steps, on `log_scan` for logs and on `payload_merge` for codecs and the fold.
#![tactic(auto)]

mod folding;
mod groups;
mod lending;
mod logs;
mod reading;
mod snapshots;
mod times;

pub use logs::PartLog;
pub use snapshots::snapshot;
