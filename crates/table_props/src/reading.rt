// Reading properties.
ghost use Rattle.std.specs.Prelude.{◌≡◌, ◌<◌, ◌^◌, [], map, option_map, IsTrue, IfOk, None};
ghost use Rattle.avro_schema.specs.AvroTypes.{type_of};
ghost use Rattle.avro_schema.specs.SchemaTexts.{type_named};
ghost use Rattle.table_props.specs.Keys.{is_bucket_count, is_table_name};
ghost use Rattle.table_props.specs.PropsTexts.{Answers, IsTold, first_bad, ok_of, read_lines, read_props, told_in, told_of};
ghost use Rattle.table_props.specs.LentEntries.{entries_view, places_view, told_by};

use crate::entries::{Entries, entries_in};
use crate::lines::{first_bad, lines_of};
use crate::places::{Places, places_in};
use crate::props::{Props, PropsError};
use avro_schema::{Schema, SchemaError, parse_schema};
use hudi_base::Name;
use std::alloc::{AllocError, Global};

// The schema that a value names, if it names one.
fn schema_in(alloc: Global, value: &[u8]) -> Result<Option<Schema>, AllocError>
    ensures { IfOk result (λ schema. option_map type_of schema ≡ ok_of (type_named value.now)) }
{
    match parse_schema(alloc, value) {
        Ok(schema) => Ok(Some(schema)),
        Err(SchemaError::Memory) => Err(AllocError),
        Err(_) => Ok(None),
    }
}

// A place in a schema, whose fields have never as many places as a number of 32 bits.
fn place_number(place: usize) -> Result<u32, AllocError>
    ensures { IfOk result (λ number. number ≡ place) }
{
    match u32::try_from(place) {
        Ok(number) => Ok(number),
        Err(_) => Err(AllocError),
    }
}

fn ordering_number(place: Option<usize>) -> Result<Option<u32>, AllocError>
    ensures { IfOk result (λ number. number ≡ place) }
{
    match place {
        Some(place) => Ok(Some(place_number(place)?)),
        None => Ok(None),
    }
}

// A copy of a table's name.
fn name_of(alloc: Global, name: &[u8]) -> Result<Name, AllocError>
    requires { IsTrue (is_table_name name.now) }
    ensures { IfOk result (λ copied. copied ≡ name.now) }
{
    Name::from_slice(alloc, name)
}

// The properties of a table with these entries, this schema and its places.
fn props_of(
    alloc: Global,
    entries: &Entries<'_>,
    schema: Schema,
    places: Places,
) -> Result<Props, AllocError>
    requires name { IsTrue (is_table_name entries.now.name.now) }
    requires buckets { IsTrue (is_bucket_count entries.now.buckets) }
    ensures { IfOk result (λ props. told_of props
        ≡ told_by (entries_view entries.now) (type_of schema) (places_view places)) }
{
    let name = name_of(alloc, entries.name)?;
    let key = place_number(places.key)?;
    let partition = place_number(places.partition)?;
    let ordering = ordering_number(places.ordering)?;
    Ok(Props {
        name,
        schema,
        key,
        partition,
        ordering,
        buckets: entries.buckets as u16,
    })
}

// What lines say, none of which is refused.
#[tactic(auto, unfolding(crate::specs::PropsTexts::told_in))]
fn told_in(alloc: Global, lines: &[&[u8]]) -> Result<Option<Props>, AllocError>
    requires { first_bad [] (map (λ line. line.now) lines.now) ≡ None }
    ensures { IfOk result (λ props. option_map told_of props ≡ told_in (map (λ line. line.now) lines.now)) }
{
    let Some(entries) = entries_in(lines) else {
        return Ok(None);
    };
    let Some(schema) = schema_in(alloc, entries.schema)? else {
        return Ok(None);
    };
    let Some(places) = places_in(&entries, &schema) else {
        return Ok(None);
    };
    Ok(Some(props_of(alloc, &entries, schema, places)?))
}

// The properties that lines say, none of which is refused.
fn props_in(alloc: Global, lines: &[&[u8]]) -> Result<Props, PropsError>
    requires { first_bad [] (map (λ line. line.now) lines.now) ≡ None }
    ensures exact { Answers result (read_lines (map (λ line. line.now) lines.now) None) }
    ensures told { IfOk result (λ props. IsTold (told_of props)) }
{
    match told_in(alloc, lines)? {
        Some(props) => Ok(props),
        None => Err(PropsError::BadProps(lines.len() + 1)),
    }
}

/// The properties that the text of `hoodie.properties` says. A line is a key, `=` and a value, in any order. An empty
/// line, one that begins with `#` and a key that isn't listed are passed over; a carriage return is part of the value,
/// and the last line needs no line feed.
///
/// `BadProps` has the number of the first line, from 1, that has no `=`, has a listed key again, or a value that its key
/// can't have. Where each line passes, it is the number of lines plus one if a key other than the ordering field's has
/// no value, the schema isn't flat, or a field that is named isn't there or isn't of its type. The rules are this
/// project's own.
pub fn parse_props(alloc: Global, bytes: &[u8]) -> Result<Props, PropsError>
    // Which answer comes, and at which line the first fault is.
    ensures exact { Answers result (read_props bytes.now) }
    // What is read is a table's.
    ensures told { IfOk result (λ props. IsTold (told_of props)) }
{
    let lines = lines_of(alloc, bytes)?;
    match first_bad(alloc, &lines)? {
        Some(place) => Err(PropsError::BadProps(place + 1)),
        None => props_in(alloc, &lines),
    }
}
