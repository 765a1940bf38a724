//! The names of a table's files: the timeline's files, base files, log files and the properties.
//!
//! Its contract: each file has one name, `parse_name` reads it back and answers `Other` exactly for what is no name of
//! a file, and distinct files have distinct names. It depends on `hudi_base`, on the forms of `table_forms`, and for
//! file ids on `sha1` and `uuid`. Layers above cite the laws of `laws` and never the bytes of a name.
#![tactic(auto)]

mod candidate;
mod endings;
mod file_ids;
mod file_name;
mod group_ids;
mod laws;
mod name_error;
mod parsing;
mod writing;

pub use file_ids::file_id;
pub use file_name::{Action, FileName, State, Token};
pub use group_ids::group_with_id;
pub use laws::names_and_files_agree;
pub use name_error::NameError;
pub use parsing::parse_name;
pub use writing::text;
