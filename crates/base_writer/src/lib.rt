//! Files of cells written, a row group at a time.
//!
//! Its contract: what is written is the one written form, as `specs/Written` of `base_cells` says. It stands on
//! `parquet_pages` for the pages and on `parquet_meta` for the footer.
#![tactic(auto)]

mod ends;
mod groups;

pub use ends::{begin, finish};
pub use groups::GroupPages;
