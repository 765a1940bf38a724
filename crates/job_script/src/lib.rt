//! Scripts in, texts out: the jobs that the lines of a script are, and the line that is printed for each job and for
//! each entry of the journal.
//!
//! Its contract: `parse_script` gives the jobs that the bytes are, or the number of the first line outside the
//! language, and each `put_` call adds exactly its text at the end of what stands there, or nothing where memory is
//! wanting. It stands on `table_core` for answers, on `table_history` for marks, and on `serde_json` and `json`.
#![tactic(auto)]

mod job_lines;
mod json_rows;
mod laws;
mod lines;
mod marks;
mod members;
mod putting;
mod rows;
mod script;
mod values;

pub use job_lines::put_job_text;
pub use laws::scripts_have_sizes;
pub use marks::put_mark_text;
pub use rows::value_of_input;
pub use script::{InputRow, Line, ScriptError, ScriptJob, parse_script};
