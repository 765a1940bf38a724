//! The records of rows in the contents of data blocks.
//!
//! Its contract: the content that `data_block` gives is read as the rows that were written, in their order; any content is
//! a reading of exactly one list of rows or is refused at the first byte of what can't be read. A content whose records
//! are all in their written form can be lent. It stands on `row_bodies` for cells, on `block_contents` for what every
//! content begins with, and on `payload_merge` for rows.
#![tactic(auto)]

mod cells;
mod head;
mod laws;
mod lending;
mod lengths;
mod own_row;
mod place;
mod reading;
mod record_layout;
mod writing;

pub use head::{OWN_CELLS, RowHead, row_head};
pub use laws::records_have_rows;
pub use own_row::row_of;
pub use record_layout::RecordLayout;
pub use writing::seqno;
