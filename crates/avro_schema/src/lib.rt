//! Avro schemas: reading them from JSON and writing them.
//!
//! Its contract: `parse_schema` gives the type that a text names, as the definitions in `specs/` say by cases over JSON, or
//! the first refusal in a walk from the root with the path to its place; `text_of` writes the one text of a type, and a
//! schema that was read is read again from it. The grammar of values stands in `specs/` as well, for the crates above.
//! It stands on `serde_json` for JSON, on `table_forms` for the members of objects, and on `hudi_base` for names and lists.
#![tactic(auto)]

mod head;
mod name_list;
mod names;
mod parse;
mod schema;
mod schema_error;
mod text;

pub use head::MAX_FIXED_SIZE;
pub use parse::{MAX_DEPTH, parse_schema, schema_of_json};
pub use schema::{Field, Fields, Schema, Schemas, Symbols};
pub use schema_error::{Path, SchemaError};
pub use text::text_of;
