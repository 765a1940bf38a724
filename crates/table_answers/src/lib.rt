//! What jobs answer, said of the history of a table: a snapshot is the fold of the instants that were completed at its
//! pin.
//!
//! It is definitions and laws, in `specs/` and `laws`. Jobs came in turn where none of one stands between two of
//! another's; a history carries writes where each append carried the block of some writes for its target. On a table that
//! began without instants, what a query in turn answers, made of the bytes that it read, is then the fold of the
//! instants completed at its pin, each with the writes of the blocks that it placed. It stands on `upsert_writer`,
//! `table_query` and `table_board`.
#![tactic(auto)]

mod laws;

pub use laws::{
    beginnings_are_legal, committed_batches, completed_instants_stay, queries_carry_writes,
    snapshots_are_folds, turns_go_on, writers_carry_writes,
};
