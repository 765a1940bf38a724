//! What the files of the timeline hold: metadata, as JSON.
//!
//! Its contract: `meta_text` writes the one text of metadata; `meta_parse` gives the metadata of a file's bytes as the
//! equations in `specs/` say by cases over JSON, or the first member that is at fault; and what has a written form is
//! read back from it. It stands on `meta_parts` for the values inside, on `serde_json` for JSON, on `table_forms` for the
//! members of objects, on `file_names` for actions and states, and on `hudi_base`.
#![tactic(auto)]

mod content;
mod members;
mod meta;
mod meta_error;
mod reading;
mod writing;

pub use meta::{
    BasesMeta, CleanPlan, ClusterPlan, CompactPlan, DeltaMeta, Meta, ReplacedMeta, RollbackPlan,
};
pub use meta_error::MetaTextError;
pub use meta_parts::{BaseMade, NamedFile, PlanGroup};
pub use reading::meta_parse;
pub use writing::meta_text;
