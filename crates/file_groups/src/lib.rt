//! The files of file groups: which base and log files each group of a partition has, and which of them are read at a
//! time.
//!
//! Its contract: `view_of` gives each group its own files and refuses files of other partitions, and `chain` gives the
//! newest base file up to a time and the logs from its slice on, whatever the instants of their blocks. It stands on
//! `key_index` for the groups of a partition, on `file_names` for names, and on `hudi_base`.
#![tactic(auto)]

mod chains;
mod copies;
mod laws;
mod names;
mod parts;
mod slots;
mod view_error;
mod views;

pub use chains::chain;
pub use laws::parts_are_determined;
pub use parts::{BasePart, GroupView, LogPart, Part};
pub use view_error::ViewError;
pub use views::view_of;
