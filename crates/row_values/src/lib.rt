//! The rows of a table and the values of their fields.
//!
//! Its contract: what JSON says of a row becomes a record of the table's flat schema, and a record becomes a row whose body
//! is the record's one written form, each exactly as the definitions in `specs/` say; each refusal comes exactly where they
//! have no answer, in its order. It stands on `table_props` for the schema, on `avro_value` for the form
//! of bodies, and on `payload_merge` for rows.
#![tactic(auto)]

mod cell_ref;
mod flat_field;
mod json_input;
mod laws;
mod new_layout;
mod new_row;
mod row_layout;

pub use cell_ref::{CellRef, rank_in, text_at};
pub use flat_field::{CellType, FlatField, FlatFields};
pub use laws::told_properties_have_typed_places;
pub use new_row::{MAX_BODY_BYTES, MAX_KEY_BYTES, put_fields};
pub use row_layout::RowLayout;
