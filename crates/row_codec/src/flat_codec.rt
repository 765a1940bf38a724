// The codec of a table.
ghost use Rattle.std.specs.Prelude.{◌≡◌, ◌<◌, ◌^◌, true, length};
ghost use Rattle.std.specs.Str.{is_utf8};
ghost use Rattle.avro_schema.specs.SchemaTexts.{type_text};
ghost use Rattle.row_records.specs.Records.{record_type};
ghost use Rattle.row_columns.specs.Base.{columns_of};

use hudi_base::{Bytes, Columns};
use row_records::RecordLayout;

/// How the rows of a table with a flat schema are written and read.
#[derive(Drop)]
pub struct FlatCodec {
    /// What rows and their records are made of.
    pub records: RecordLayout,
    /// The columns of base files.
    pub columns: Columns,
    /// The text of the schema of records.
    pub text: Bytes,
    pub ghost columns_are: { columns ≡ columns_of records.own },
    pub ghost text_is: { text ≡ type_text (record_type records.own) },
    pub ghost utf8: { is_utf8 text ≡ true },
    pub ghost short: { length text < 2 ^ 32 },
}
