// Codecs of properties.
ghost use Rattle.std.specs.Prelude.{◌≡◌, ◌<◌, ◌^◌, List, IsUtf8, true, length, IfOk};
ghost use Rattle.hudi_base.specs.declared.value.Value.{Value};
ghost use Rattle.serde_json.specs.View.{view};
ghost use Rattle.avro_schema.specs.Fits.{Fits};
ghost use Rattle.avro_schema.specs.SchemaTexts.{type_text};
ghost use Rattle.row_values.specs.Cells.{AreCells, record_of_cells};
ghost use Rattle.row_values.specs.JsonRows.{AnswersValue};
ghost use Rattle.row_values.specs.Layouts.{has_typed_places, own_type};
ghost use Rattle.row_values.specs.RowCells.{AnswersRow};
ghost use Rattle.row_records.specs.Records.{record_type};
ghost use Rattle.row_codec.specs.Codec.{AnswersCodec, IsOfTable};
ghost use Rattle.table_props.specs.PropsTexts.{told_of};

use crate::flat_codec::FlatCodec;
use crate::schema::record_schema;
use avro_schema::text_of;
use hudi_base::{Bytes, InstantTime, Value};
use payload_merge::{Row, RowError};
use row_columns::columns_of;
use row_records::RecordLayout;
use row_values::RowLayout;
use std::alloc::{AllocError, Global};
use table_props::Props;

// The text of the schema of records. Its length has four bytes in a block, so it has a limit, past which memory is said
// to be wanting.
fn schema_text(alloc: Global, records: &RecordLayout) -> Result<Bytes, AllocError>
    ensures text { IfOk result (λ text. text ≡ type_text (record_type records.now.own)) }
    ensures utf8 { IfOk result IsUtf8 }
    ensures short { IfOk result (λ text. length text < 2 ^ 32) }
{
    let schema = record_schema(alloc, records)?;
    let text = text_of(alloc, &schema)?;
    if text.as_slice().len() > u32::MAX as usize {
        return Err(AllocError);
    }
    Ok(text)
}

fn codec_of(alloc: Global, layout: RowLayout) -> Result<FlatCodec, AllocError>
    ensures { IfOk result (λ codec. codec.records.own ≡ layout) }
{
    let records = RecordLayout::new(alloc, layout)?;
    let columns = columns_of(alloc, &records)?;
    let text = schema_text(alloc, &records)?;
    Ok(FlatCodec {
        records,
        columns,
        text,
    })
}

impl FlatCodec {
    /// The codec of a table with these properties, whose schema is a record and whose three places are those of fields
    /// of their types. `NotFlat` comes exactly where a field isn't flat, with the place of the first: its type isn't a
    /// boolean, int, long, bytes or string, or null and one of these, or its name begins with `_hoodie_`. The only
    /// other error is want of memory.
    pub fn new(alloc: Global, props: &Props) -> Result<FlatCodec, RowError>
        requires { has_typed_places props.now ≡ true }
        ensures answer { AnswersCodec props.now result }
        ensures table { IfOk result (λ codec. IsOfTable codec.records.own (told_of props.now)) }
    {
        match RowLayout::new(alloc, props) {
            Ok(layout) => Ok(codec_of(alloc, layout)?),
            Err(error) => Err(error),
        }
    }

    /// The record of the table's schema that a JSON object says, or where it doesn't: as `RowLayout::value_of_json`.
    pub fn value_of_json(&self, alloc: Global, json: &serde_json::Value) -> Result<Value, RowError>
        ensures value { AnswersValue self.now.records.own.fields (view json.now) result }
        ensures fits { IfOk result (Fits (own_type self.now.records.own)) }
    {
        self.records.own.value_of_json(alloc, json)
    }

    /// The row that an instant writes of a record of the table's schema, at a place in its batch, or the first refusal:
    /// as `RowLayout::row_of`.
    pub fn row_of(
        &self,
        alloc: Global,
        value: &Value,
        t: InstantTime,
        seq: u32,
    ) -> Result<Row, RowError>
        requires { Fits (own_type self.now.records.own) value.now }
        ensures { (cells : List Value) × AreCells self.now.records.own.fields cells × (value.now ≡ record_of_cells self.now.records.own.fields cells) × AnswersRow self.now.records.own cells t seq result }
    {
        self.records.own.row_of(alloc, value, t, seq)
    }

    /// The place of the ordering field in the schema, if there is one. It takes no memory.
    pub fn ordering(&self) -> Option<u32>
        ensures { result ≡ self.now.records.own.ordering }
    {
        self.records.own.ordering
    }
}
