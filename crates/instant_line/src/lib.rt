//! The timeline of a table: which instants there are, what each does, and how far it is.
//!
//! Its contract: names of files are a timeline exactly where no file of an earlier state is missing and no time has two
//! actions, and the error names the first that isn't; an instant moves from state to state and back without memory. It
//! stands on `hudi_base` and `file_names`.
#![tactic(auto)]

mod entries;
mod first_break;
mod laws;
mod line_error;
mod pending_list;
mod reading;
mod timeline;

pub use laws::timelines_and_instants_agree;
pub use line_error::LineError;
pub use reading::from_names;
pub use timeline::Timeline;
