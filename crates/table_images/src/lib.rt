//! Images of a table: when the files of a store stand for it, and what a stop at or within any step leaves.
//!
//! It is definitions and laws, in `specs/` and `laws`. The files stand for a table where the timeline's files are those
//! of its instants, each log is whole blocks and then nothing or a torn rest, the chains of its groups hold the writes
//! of completed instants in order, numbers are bounded, and the files begin with the bytes that the table knows. Its
//! law is that every image of a run of entries stands for the table after the entries so far, or with the step under
//! way failed or done. A board shows of each of its steps what it did to the store, and has the law for its whole run.
//! It stands on `hudi_base`, `file_names`, `key_index`, `log_block` and `table_history`.
#![tactic(auto)]

mod laws;

pub use laws::{
    every_image_stands, images_can_be_opened, no_file_is_damaged, operations_leave_other_files,
    properties_are_a_fresh_table, steps_keep_images, stores_tell_runs, texts_and_chains_are_one,
};
