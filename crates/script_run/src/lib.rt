//! A run of a script in one lane: the table that its first line makes, the jobs over it, and the journal.
//!
//! Its contract is that of `hudi_run_solo`: why the program ends with each status, that the text is the job lines and one
//! line an entry of a legal history, that each write's blocks hold its batch, that each snapshot is the fold of the
//! instants completed at its pin, and what a stop leaves. `run_job` does one job of a script over any table that answers
//! steps. It stands on `script_jobs` for the lines and on `script_texts` for what is printed, on `row_codec` for rows, on
//! `upsert_writer` and `table_query` for the jobs, on `table_answers` for what snapshots are, and on `table_board` for the
//! table over a store.
#![tactic(auto)]

mod gate;
mod input;
mod jobs;
mod lines;
mod output;
mod printing;
mod solo;
mod verdict;
mod words;

pub use lines::run_job;
pub use solo::hudi_run_solo;
pub use verdict::OUT_OF_MEMORY;
