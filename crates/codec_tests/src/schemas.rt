// Codecs of properties whose schema isn't flat.
ghost use Rattle.std.specs.Prelude.{◌≡◌, ◌∷◌, [], true, IfOk};
ghost use Rattle.avro_schema.specs.AvroTypes.{field_of};
ghost use Rattle.table_props.specs.Flat.{is_string_type};
ghost use Rattle.row_values.specs.Layouts.{has_typed_places};

use avro_schema::{Field, Fields, Schema, parse_schema};
use hudi_base::Name;
use payload_merge::RowError;
use row_codec::FlatCodec;
use std::alloc::{AllocError, Global};
use std::test::*;
use table_props::Props;

// Names and types of the third of four fields, and the place of the field that is refused. The first two are
// strings, and the last has a name that no field may have.
const FIELDS: &[(&str, &str, u32)] = &[
    ("v", r#""boolean""#, 3),
    ("_hoodie", r#""bytes""#, 3),
    ("v", r#"["null","int"]"#, 3),
    ("_hoodie_v", r#""long""#, 2),
    ("v", r#""null""#, 2),
    ("v", r#"["long"]"#, 2),
    ("v", r#"["long","null"]"#, 2),
    ("v", r#"["null","int","long"]"#, 2),
    ("v", r#"["null",{"type":"array","items":"long"}]"#, 2),
    ("v", r#"{"type":"array","items":"long"}"#, 2),
    ("v", r#"{"type":"map","values":"long"}"#, 2),
    ("v", r#"{"type":"fixed","name":"f","size":8}"#, 2),
    ("v", r#"{"type":"enum","name":"e","symbols":["A"]}"#, 2),
    (
        "v",
        r#"{"type":"record","name":"s","fields":[{"name":"x","type":"long"}]}"#,
        2,
    ),
];

fn string_field(alloc: Global, name: &str) -> Result<Field, AllocError>
    ensures { IfOk result (λ field. is_string_type (field_of field).1 ≡ true) }
{
    Ok(Field {
        name: Name::from_text(alloc, name)?,
        schema: Schema::Text,
    })
}

// Four fields in their order.
fn four(
    alloc: Global,
    first: Field,
    second: Field,
    third: Field,
    fourth: Field,
) -> Result<Fields, AllocError>
    ensures { IfOk result (λ fields. fields ≡ first ∷ second ∷ third ∷ fourth ∷ []) }
{
    let mut fields = Fields::new(alloc);
    fields.push(first)?;
    fields.push(second)?;
    fields.push(third)?;
    fields.push(fourth)?;
    Ok(fields)
}

// Properties of a table whose third field is this one.
fn props_of(alloc: Global, third: Field) -> Result<Props, AllocError>
    ensures { IfOk result (λ props. has_typed_places props ≡ true) }
{
    let first = string_field(alloc, "id")?;
    let second = string_field(alloc, "p")?;
    let last = string_field(alloc, "_hoodie_")?;
    let fields = four(alloc, first, second, third, last)?;
    let name = Name::from_text(alloc, "t")?;
    let record = Name::from_text(alloc, "r")?;
    Ok(Props {
        name,
        schema: Schema::Record(record, fields),
        key: 0,
        partition: 1,
        ordering: None,
        buckets: 1,
    })
}

// The place of the field that is refused.
fn refused(alloc: Global, name: &str, schema: &str) -> Result<Option<u32>, Fail> {
    let Ok(schema) = parse_schema(alloc, schema.as_bytes()) else {
        return Err("a schema")?;
    };
    let name = Name::from_text(alloc, name)?;
    let props = props_of(alloc, Field { name, schema })?;
    match FlatCodec::new(alloc, &props) {
        Ok(_) => Ok(None),
        Err(RowError::NotFlat(place)) => Ok(Some(place)),
        Err(_) => Err("another error")?,
    }
}

// The first field of which something else is said.
fn misread(alloc: Global, rows: &[(&str, &str, u32)]) -> Result<Option<usize>, Fail> {
    for (row, (name, schema, want)) in rows.iter().enumerate() {
        if refused(alloc, name, schema)? != Some(*want) {
            return Ok(Some(row));
        }
    }
    Ok(None)
}

#[test]
fn the_first_field_that_isnt_flat_is_refused(rt: HostRuntime) -> Result<(), Fail> {
    assert_eq!(rt; misread(rt.alloc(), FIELDS)?, None);
    Ok(())
}
