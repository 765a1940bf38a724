//! The printed texts of a run: the line of each job and its answer, and the line of each entry of the journal.
//!
//! Its contract: each `put_` call adds exactly its text at the end of what stands there, or nothing where memory is
//! wanting. It stands on `script_jobs` for jobs, on `table_core` for answers, on `row_codec` for rows as JSON and on
//! `table_history` for marks.
#![tactic(auto)]

mod answers;
mod job_lines;
mod laws;
mod marks;
mod putting;
mod rows;

pub use job_lines::{put_job_text, put_made_text};
pub use laws::own_rows_have_their_cells;
pub use marks::put_mark_text;
