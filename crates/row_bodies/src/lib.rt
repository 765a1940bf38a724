//! The bodies of rows: the cells that they hold, lent from their bytes.
//!
//! Its contract: bytes are read as the cells of a record exactly where `avro_schema`'s `specs/` read them as that record,
//! or the same item is short or bad; keys and texts aren't copied. It stands on `row_values` for fields and cells, and on
//! `byte_fields` for primitives.
#![tactic(auto)]

mod cells;
mod errors;
mod primitives;

pub use cells::cells_at;
pub use errors::ReadError;
