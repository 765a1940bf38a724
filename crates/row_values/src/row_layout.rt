// What the rows of a table are made of.
ghost use Rattle.std.specs.Prelude.{◌≡◌, true};
ghost use Rattle.row_values.specs.Fields.{has_places};

use crate::flat_field::FlatFields;
use hudi_base::Name;

/// The fields of a table's rows, and which of them are the record key, the partition and the ordering field.
#[derive(Drop)]
pub struct RowLayout {
    /// The table's name.
    pub table: Name,
    /// The name of the record in the schema.
    pub record_name: Name,
    /// The fields of the schema, in their order.
    pub fields: FlatFields,
    /// The place of the record key's field, from 0. It is a string.
    pub key: u32,
    /// The place of the partition's field. It is a string.
    pub partition: u32,
    /// The place of the ordering field, if there is one. It is a whole number, which may be null.
    pub ordering: Option<u32>,
    pub ghost places: { has_places key partition ordering fields ≡ true },
}
