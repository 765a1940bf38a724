//! What the jobs of a table share: the codec of a table with its name, the text of its schema and the rows that values
//! make; keys to delete; and the answer that a job's own entries tell.
//!
//! Its contract is in its definitions: which reply of a step ends a job, and with which answer, and which new rows and
//! deletes are refused, and why. It stands on `table_history` for steps and `table_core` for the answers of jobs, on
//! `payload_merge` for codecs and on `file_names` for file ids.
#![tactic(auto)]

mod del_key;
mod deletes;
mod ids;
mod table_codec;

pub use del_key::{DelKey, DelKeys};
pub use deletes::delete_of;
pub use ids::file_id_of;
pub use table_codec::TableCodec;
