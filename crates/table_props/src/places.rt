// The places of the fields that are named.
ghost use Rattle.std.specs.Prelude.{◌≡◌, ◌<◌, length, map, option_map, position, IfSome, MatchOption, true, false};
ghost use Rattle.avro_schema.specs.AvroTypes.{type_of, field_of};
ghost use Rattle.std.specs.Str.{bytes_eq};
ghost use Rattle.table_props.specs.Flat.{is_rank_type, is_string_type, is_flat, fields_in};
ghost use Rattle.table_props.specs.PropsTexts.{named_place, place_of, ordering_place, places_in};
ghost use Rattle.table_props.specs.LentEntries.{entries_view, places_view};

use crate::entries::Entries;
use crate::flat::{first_not_flat, is_rank_type, is_string_type};
use avro_schema::{Field, Schema};

// The places of the fields that entries name.
#[derive(Clone, Copy)]
pub(crate) struct Places {
    pub(crate) key: usize,
    pub(crate) partition: usize,
    pub(crate) ordering: Option<usize>,
}

fn is_named(field: &Field, name: &[u8]) -> bool
    ensures { result ≡ bytes_eq (field_of field.now).0 name.now }
{
    field.name.as_slice() == name
}

fn is_string_field(field: &Field) -> bool
    ensures { result ≡ is_string_type (field_of field.now).1 }
{
    is_string_type(&field.schema)
}

fn is_rank_field(field: &Field) -> bool
    ensures { result ≡ is_rank_type (field_of field.now).1 }
{
    is_rank_type(&field.schema)
}

fn first_named(fields: &[Field], name: &[u8]) -> Option<usize>
    ensures { result ≡ position (λ field. bytes_eq (field_of field).0 name.now) fields.now }
{
    fields.iter().position(|field| is_named(field, name))
}

// The place of the first field with a name.
fn named_place(fields: &[Field], name: &[u8]) -> Option<usize>
    ensures place { result ≡ named_place name.now (map field_of fields.now) }
    ensures within { IfSome result (λ place. place < length fields.now) }
{
    first_named(fields, name)
}

/// The place of the first field with this name, from 0, where it is a string.
pub fn string_place(fields: &[Field], name: &[u8]) -> Option<usize>
    ensures { result ≡ place_of is_string_type name.now (map field_of fields.now) }
{
    let place = named_place(fields, name)?;
    if is_string_field(&fields[place]) {
        Some(place)
    } else {
        None
    }
}

/// The place of the first field with this name, from 0, where it is a whole number, or null or a whole number.
pub fn rank_place(fields: &[Field], name: &[u8]) -> Option<usize>
    ensures { result ≡ place_of is_rank_type name.now (map field_of fields.now) }
{
    let place = named_place(fields, name)?;
    if is_rank_field(&fields[place]) {
        Some(place)
    } else {
        None
    }
}

// The place of the ordering field, where one is named.
fn ordering_place(fields: &[Field], name: Option<&[u8]>) -> Option<Option<usize>>
    ensures { result ≡ ordering_place (option_map (λ name. name.now) name.entry) (map field_of fields.now) }
{
    match name {
        None => Some(None),
        Some(name) => match rank_place(fields, name) {
            Some(place) => Some(Some(place)),
            None => None,
        },
    }
}

/// The fields of a schema that is flat: a record of fields that `first_not_flat` doesn't find.
pub fn flat_fields(schema: &Schema) -> Option<&[Field]>
    ensures { MatchOption result (is_flat (type_of schema.now) ≡ false)
        (λ fields. (is_flat (type_of schema.now) ≡ true) × (map field_of fields.now ≡ fields_in (type_of schema.now))) }
{
    match schema {
        Schema::Record(_, fields) => match first_not_flat(fields.as_slice()) {
            None => Some(fields.as_slice()),
            Some(_) => None,
        },
        _ => None,
    }
}

// The places of the fields that entries name, where the schema is flat and has them.
#[tactic(auto, unfolding(crate::specs::PropsTexts::places_in))]
pub(crate) fn places_in(entries: &Entries<'_>, schema: &Schema) -> Option<Places>
    ensures { option_map places_view result ≡ places_in (entries_view entries.now) (type_of schema.now) }
{
    let fields = flat_fields(schema)?;
    let key = string_place(fields, entries.key_field)?;
    let partition = string_place(fields, entries.partition_field)?;
    let ordering = ordering_place(fields, entries.ordering_field)?;
    Some(Places {
        key,
        partition,
        ordering,
    })
}
