//! Tests of `job_script` and `script_jobs`: scripts in and out of the language with the numbers of bad lines and their
//! causes, and the printed texts of each answer and each mark, as tables.
#![tactic(auto)]

#[cfg(test)]
mod jobs;
#[cfg(test)]
mod lines;
#[cfg(test)]
mod scripts;
#[cfg(test)]
mod texts;
