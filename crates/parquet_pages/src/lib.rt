//! Pages of a Parquet file: definition levels and PLAIN values behind a page's header, written and read.
//!
//! Its contract: what is written is the one written form, and what is read is what the definitions in `specs/` read from
//! the bytes; a refusal names the part that is wrong, exactly where they do. A page's values are read in one pass, and
//! nothing is reserved from a number that a page claims. It stands on `parquet_meta` for the headers, on `byte_fields` for
//! the fields and on `hudi_base` for cells and columns.
#![tactic(auto)]

mod bits;
mod laws;
mod levels;
mod page;
mod page_cells;
mod page_error;
mod plain;
mod read_error;

pub use laws::{
    levels_are_runs, pages_are_read, written_levels_are_read, written_pages_are_read, written_sizes,
};
pub use levels::{levels_read, levels_write};
pub use page::{put_page, read_page, strange_encoding, write_page};
pub use page_cells::PageCells;
pub use page_error::PageError;
