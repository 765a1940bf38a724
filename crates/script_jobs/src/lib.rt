//! Scripts: the jobs that the lines of a script are.
//!
//! Its contract: `parse_script` gives the jobs of the bytes as `specs/` defines them by cases over JSON, or the number
//! of the first line outside the language with the cause that comes first in that line; a law says what the jobs are
//! within. It stands on `table_props` for what a table is made with, on `avro_schema` for its schema, on `table_jobs` for
//! keys to delete, and on `serde_json` and `table_forms` for JSON.
#![tactic(auto)]

mod deletes;
mod draft;
mod fault;
mod init;
mod json_rows;
mod kind;
mod laws;
mod lines;
mod parse;
mod script;

pub use json_rows::JsonRows;
pub use laws::scripts_are_within_limits;
pub use parse::parse_script;
pub use script::{Job, Jobs, LineCause, LineError, Phase, Phases, Script, What};
