//! Base files as files of cells: the two ends of a Parquet file, its footer, and the cells of its row groups.
//!
//! Its contract: what is read of the bytes is what the definitions in `specs/` read, and a refusal has their cause and
//! their place in the file. Nothing is reserved from a number that a file claims. What the cells mean is a codec's matter
//! and that of `base_file`, which stands on this crate. It stands on `parquet_meta` for the footer and on `parquet_pages`
//! for the pages.
#![tactic(auto)]

mod base_error;
mod chunks;
mod columns;
mod ends;
mod groups;
mod pages;
mod turning;

pub use base_error::{BaseCause, BaseError};
pub use columns::read_footer;
pub use groups::{read_columns, read_group};
pub use turning::last_cells;
