//! The payload rule of a merge-on-read table: what one write makes of the present row of its key, and what many
//! writes make of a table.
//!
//! Its contract: `apply` is the rule, `RowMap` folds writes one by one as a finite map from keys to rows does,
//! `fold_writes` folds many borrowed writes at once to the same end, and the laws say what the fold comes to for one
//! key. The trait `RowCodec` says for which rows the content of a block and the cells of a base file stand. It stands on
//! `hudi_base` for names, bytes and times and on `column_cells` for the cells of a column.
#![tactic(auto)]

mod laws;
mod lent_fold;
mod merge_error;
mod payload;
mod prefixed_writes;
mod row;
mod row_codec;
mod row_error;
mod row_map;
mod row_refs;
mod rows_by_key;
mod summary;

pub use laws::{
    base_of_a_table_makes_it, data_contents_fold_as_their_rows, instants_fold_in_time_order,
    instants_fold_key_by_key, later_contents_fold_last, later_instants_fold_last,
    latest_of_greatest_rank_stays, rows_make_their_table, summaries_join, summaries_keep_their_key,
    summary_is_the_whole_effect, writes_act_key_by_key, writes_to_some_keys_suffice,
};
pub use lent_fold::fold_writes;
pub use merge_error::MergeError;
pub use payload::apply;
pub use row::{Row, Rows, Write, Writes};
pub use row_codec::RowCodec;
pub use row_error::RowError;
pub use row_map::RowMap;
pub use row_refs::{RowRef, WriteRef};
pub use summary::Summary;
