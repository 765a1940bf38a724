//! The footer of a Parquet file and the headers of its pages: their structs, written and read in Thrift's compact protocol.
//!
//! Its contract: what is written is the one written form; what is read is what the definitions in `specs/` read from the
//! bytes, and a refusal names the item that is wrong, exactly where they do. It stands on `thrift_compact` for the items
//! and on `hudi_base` for bytes and lists.
#![tactic(auto)]

mod chunk;
mod element;
mod fields;
mod file_meta;
mod laws;
mod page_header;
mod read_error;
mod row_group;
mod writing;

pub use chunk::{Chunk, Chunks};
pub use element::{Element, Elements};
pub use file_meta::{FileMeta, read_meta, write_meta};
pub use laws::{
    footers_are_structs, headers_are_structs, written_footers_are_read, written_headers_are_read,
};
pub use page_header::{PageHeader, read_page_header, write_page_header};
pub use read_error::MetaError;
pub use row_group::{RowGroup, RowGroups};
