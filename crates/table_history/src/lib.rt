//! Histories of a table: steps with their replies, what a list of them says of the table's instants, logs and pins,
//! which reply a step may have after it, and which entries a job may have.
//!
//! It is definitions and laws, in `specs/` and `laws`: that an entry changes nothing of what it isn't about, that an
//! owned instant was drawn, and that a job which keeps its own law meets the condition of its next step. The control
//! tables above decide by these definitions. It stands on `hudi_base`, `file_names` and, for the
//! groups that share the slots of a partition, `key_index`.
#![tactic(auto)]

mod entry;
mod job;
mod laws;
mod log_file;
mod operation;
mod reply;
mod step;
mod steps;
mod view;
mod work;

pub use entry::{Entry, Mark};
pub use job::Job;
pub use laws::{entries_leave_others, jobs_may_ask, owned_instants_were_drawn};
pub use log_file::LogFile;
pub use operation::{Decision, Op};
pub use reply::{Cause, Reply};
pub use step::{PartitionSlots, Reader, Step};
pub use steps::Steps;
pub use view::{GroupParts, LivePin, Part, View};
pub use work::Work;
