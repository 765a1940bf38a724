// Writing properties.
ghost use Rattle.std.specs.Prelude.{◌≡◌, ◌++◌, OnOk, IfOk, IfErr, Ok};
ghost use Rattle.std.specs.Fmt.{decimal};
ghost use Rattle.serde_json.specs.Data.{Data};
ghost use Rattle.avro_schema.specs.AvroTypes.{type_of, field_of};
ghost use Rattle.avro_schema.specs.SchemaTexts.{type_in, type_named, type_text};
ghost use Rattle.table_props.specs.PropsTexts.{IsTold, told_of, line_text, field_name, ordering_line, props_text, read_props};
ghost use Rattle.table_props.specs.declared.props.PropsError.TheVariants.{Memory};
ghost use Rattle.table_props.specs.declared.property_key.PropertyKey.TheVariants.{Buckets, TableSchema};

use crate::property_key::{LAYOUT_VERSION, PropertyKey, TABLE_TYPE, TABLE_VERSION};
use crate::props::{Props, PropsError};
use avro_schema::{Field, Schema, text_of};
use hudi_base::Bytes;
use std::alloc::{AllocError, Global};

// Adds the line of a key and its value.
fn put_line(out: &mut Vec<u8>, key: PropertyKey, value: &[u8]) -> Result<(), AllocError>
    ensures { OnOk result (out.new.items ≡ out.old.items ++ line_text key value.now) }
{
    out.extend_from_slice(key.text())?;
    out.push(b'=')?;
    out.extend_from_slice(value)?;
    out.push(b'\n')?;
    Ok(())
}

fn name_of(field: &Field) -> &[u8]
    ensures { result.now ≡ (field_of field.now).0 }
{
    field.name.as_slice()
}

// The name of the field at a place, which is empty where there is none.
fn field_name(schema: &Schema, place: u32) -> &[u8]
    ensures { result.now ≡ field_name (type_of schema.now) place }
{
    match schema {
        Schema::Record(_, fields) => match fields.get(place as usize) {
            Some(field) => name_of(field),
            None => b"",
        },
        _ => b"",
    }
}

fn put_field(
    out: &mut Vec<u8>,
    key: PropertyKey,
    schema: &Schema,
    place: u32,
) -> Result<(), AllocError>
    ensures { OnOk result (out.new.items ≡ out.old.items ++ line_text key (field_name (type_of schema.now) place)) }
{
    put_line(out, key, field_name(schema, place))
}

fn put_ordering(out: &mut Vec<u8>, props: &Props) -> Result<(), AllocError>
    ensures { OnOk result (out.new.items
        ≡ out.old.items ++ ordering_line (type_of props.now.schema) props.now.ordering) }
{
    match props.ordering {
        Some(place) => put_field(out, PropertyKey::OrderingField, &props.schema, place),
        None => Ok(()),
    }
}

fn put_buckets(alloc: Global, out: &mut Vec<u8>, buckets: u16) -> Result<(), AllocError>
    ensures { OnOk result (out.new.items ≡ out.old.items ++ line_text Buckets (decimal buckets)) }
{
    let digits = format!(in alloc; "{buckets}")?;
    put_line(out, PropertyKey::Buckets, digits.as_bytes())
}

fn put_schema(alloc: Global, out: &mut Vec<u8>, schema: &Schema) -> Result<(), AllocError>
    ensures line { OnOk result (out.new.items
        ≡ out.old.items ++ line_text TableSchema (type_text (type_of schema.now))) }
    ensures named { OnOk result ((json : Data) → type_in json ≡ Ok (type_of schema.now)
        → type_named (type_text (type_of schema.now)) ≡ Ok (type_of schema.now)) }
{
    let text = text_of(alloc, schema)?;
    put_line(out, PropertyKey::TableSchema, text.as_slice())
}

#[tactic(auto, unfolding(crate::specs::PropsTexts::props_text))]
fn props_bytes(alloc: Global, props: &Props) -> Result<Vec<u8>, AllocError>
    ensures text { IfOk result (λ out. out.items ≡ props_text (told_of props.now)) }
    ensures named { OnOk result ((json : Data) → type_in json ≡ Ok (type_of props.now.schema)
        → type_named (type_text (type_of props.now.schema)) ≡ Ok (type_of props.now.schema)) }
{
    let mut out = Vec::new(alloc);
    put_line(&mut out, PropertyKey::TableName, props.name.as_slice())?;
    put_line(&mut out, PropertyKey::TableType, TABLE_TYPE)?;
    put_line(&mut out, PropertyKey::TableVersion, TABLE_VERSION)?;
    put_field(&mut out, PropertyKey::KeyField, &props.schema, props.key)?;
    put_field(
        &mut out,
        PropertyKey::PartitionField,
        &props.schema,
        props.partition,
    )?;
    put_ordering(&mut out, props)?;
    put_line(&mut out, PropertyKey::LayoutVersion, LAYOUT_VERSION)?;
    put_buckets(alloc, &mut out, props.buckets)?;
    put_schema(alloc, &mut out, &props.schema)?;
    Ok(out)
}

/// The text of `hoodie.properties`: nine lines in one order, or eight where there is no ordering field. A field is named
/// by the name of the one at its place. The properties of a table are read again from it. The only error is want of memory.
pub fn text(alloc: Global, props: &Props) -> Result<Bytes, PropsError>
    ensures text { IfOk result (λ text. text ≡ props_text (told_of props.now)) }
    ensures reads_back { IsTold (told_of props.now) → IfOk result (λ text. read_props text ≡ Ok (told_of props.now)) }
    ensures only_memory { IfErr result (λ error. error ≡ Memory) }
{
    let out = props_bytes(alloc, props)?;
    Ok(Bytes::from_vec(out))
}
