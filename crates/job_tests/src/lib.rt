//! Tests of `upsert_writer` and `table_query` on a table in memory with the rows of `plain_rows`: scripts of upserts
//! and snapshots, what they print, and each call of the store that changes something failing in turn; groups that are
//! read one after another; deletes by their ranks, and rows and keys that are refused. And tests of the contents and
//! cells of `plain_rows`.
#![tactic(auto)]

#[cfg(test)]
mod contents;
#[cfg(test)]
mod counting;
#[cfg(test)]
mod deletes;
#[cfg(test)]
mod driving;
#[cfg(test)]
mod failures;
#[cfg(test)]
mod groups;
#[cfg(test)]
mod runs;
