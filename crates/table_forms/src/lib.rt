//! Forms that many crates of the table read: the names of tables and partitions, decimal numbers, and JSON objects
//! with exactly the members that are expected.
//!
//! Its contract: each test and each reader answers what the form in `specs/` says, and no other text has it. It stands
//! on `serde_json` alone, beside `hudi_base`.
#![tactic(auto)]

mod decimals;
mod json_objects;
mod name_forms;
mod pieces;

pub use decimals::read_decimal;
pub use json_objects::{items_at, least_unknown, lesser_name, number_at, parse_json, text_at};
pub use name_forms::{is_partition_path, is_table_name};
pub use pieces::split_once;
