//! The binary form of Avro values.
//!
//! Its contract: `encode` gives the one written form of a value, and `decode` reads a value from the beginning of bytes under
//! a schema, exactly as the grammar in `avro_schema`'s `specs/` says, or says which primitive is the first that can't be read.
//! What is read is a reading, each reading of at most `MAX_ITEMS` items is read whatever follows it, and what is written is
//! one. It stands on `avro_schema` for schemas and the grammar, and on `byte_fields` for primitives.
#![tactic(auto)]

mod blocks;
mod errors;
mod fitting;
mod laws;
mod place;
mod primitives;
mod reading;
mod writing;

pub use errors::ValueError;
pub use fitting::fits;
pub use laws::{readings_are_read, refusals_stand_within, written_forms_are_readings};
pub use reading::{MAX_ITEMS, decode};
pub use writing::encode;
