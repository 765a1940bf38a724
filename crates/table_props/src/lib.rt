//! The properties of a table, which `hoodie.properties` has.
//!
//! Its contract: `parse_props` gives what a text says, as the definitions in `specs/` say by its lines, or the number of
//! the line at which it says nothing; `text` writes the one text of properties, and what some text says is read again
//! from it. It stands on `avro_schema` for the table's schema, which has to be flat, and on `table_forms` for names and
//! numbers.
#![tactic(auto)]

mod entries;
mod flat;
mod lines;
mod places;
mod property_key;
mod props;
mod reading;
mod writing;

pub use flat::{first_not_flat, is_rank_type, is_string_type};
pub use places::{flat_fields, rank_place, string_place};
pub use props::{Props, PropsError};
pub use reading::parse_props;
pub use writing::text;
