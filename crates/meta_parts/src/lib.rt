//! The values and the objects inside the metadata of a timeline, as JSON: texts, numbers and times, file groups and
//! slices, and files.
//!
//! Its contract: each type of the trait `Form` is read from a JSON value and written as one as its equations in `specs/`
//! say. It stands on `serde_json` for JSON, on `table_forms` for the members of objects, on `file_names` for actions and
//! file ids, and on `hudi_base`.
#![tactic(auto)]

mod files;
mod form;
mod groups;
mod parts;
mod values;

pub use form::{Form, at_member};
pub use parts::{BaseMade, NamedFile, PlanGroup};
