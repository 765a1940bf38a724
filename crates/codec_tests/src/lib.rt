//! Tests of `row_codec`, as tables: contents of data blocks that another writer made, cells of base files, and
//! schemas that aren't flat, with their refusals; a row that is written, shown as JSON and read back from the cells of
//! a base file; and new rows and the deletes of `table_jobs`, with the causes why there is none.
#![tactic(auto)]

#[cfg(test)]
mod cells;
#[cfg(test)]
mod contents;
#[cfg(test)]
mod new_rows;
#[cfg(test)]
mod schemas;
#[cfg(test)]
mod table;
