// The table of these tests, and a row of it.
ghost use Rattle.std.specs.Prelude.{◌≡◌, true, IfOk};
ghost use Rattle.row_values.specs.Layouts.{has_typed_places};
ghost use Rattle.row_values.specs.RowCells.{IsOwnRow};

use hudi_base::InstantTime;
use payload_merge::{Row, RowError};
use row_codec::FlatCodec;
use row_values::told_properties_have_typed_places;
use serde_json::Value;
use std::alloc::Global;
use std::test::*;
use table_props::{Props, parse_props};

// A table with a field of each type, of which the ordering field and the bytes may be null.
const PROPERTIES: &str = "hoodie.table.name=t
hoodie.table.type=MERGE_ON_READ
hoodie.table.version=6
hoodie.table.recordkey.fields=id
hoodie.table.partition.fields=p
hoodie.table.precombine.field=v
hoodie.timeline.layout.version=1
profile.buckets=1
profile.schema={\"fields\":[{\"name\":\"id\",\"type\":\"string\"},{\"name\":\"p\",\"type\":\"string\"},\
{\"name\":\"v\",\"type\":[\"null\",\"long\"]},{\"name\":\"n\",\"type\":\"int\"},{\"name\":\"f\",\"type\":\"boolean\"},\
{\"name\":\"d\",\"type\":[\"null\",\"bytes\"]}],\"name\":\"r\",\"type\":\"record\"}
";

/// A row of the table.
pub(crate) const ROW: &str = r#"{"id":"a","p":"x","v":5,"n":-1,"f":true,"d":"0aff"}"#;

fn codec_of(alloc: Global, props: &Props) -> Result<FlatCodec, RowError>
    requires { has_typed_places props.now ≡ true }
{
    FlatCodec::new(alloc, props)
}

/// The codec of the table.
pub(crate) fn codec(alloc: Global) -> Result<FlatCodec, Fail> {
    told_properties_have_typed_places();
    let props = parse_props(alloc, PROPERTIES.as_bytes())?;
    Ok(codec_of(alloc, &props)?)
}

pub(crate) fn instant() -> Result<InstantTime, Fail> {
    Ok(InstantTime::from_text(b"20240101000000001").ok_or("no time")?)
}

/// A row of the table that JSON says.
pub(crate) fn row_of(alloc: Global, codec: &FlatCodec, json: &str) -> Result<Row, Fail>
    ensures { IfOk result (λ row. IsOwnRow codec.now.records.own row) }
{
    let json = Value::from_str(alloc, json)?;
    let value = codec.value_of_json(alloc, &json)?;
    let row = codec.row_of(alloc, &value, instant()?, 0)?;
    Ok(row)
}
