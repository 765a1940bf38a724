// JSON objects with exactly the members that are expected.
ghost use Rattle.std.specs.Prelude.{◌≡◌, IfOk, option_map, map, not, string_bytes, IfSome};
ghost use Rattle.std.specs.List.{list_any, find};
ghost use Rattle.std.specs.Str.{bytes_eq};
ghost use Rattle.std.specs.BTreeMap.{keys};
ghost use Rattle.std.specs.List.Sorted.{IsStrictlySortedBy};
ghost use Rattle.std.specs.String.{string_cmp};
ghost use Rattle.serde_json.specs.View.{view, items_view};
ghost use Rattle.table_forms.specs.JsonObjects.{json_of, least_unknown, IsLeastUnknown, lesser_name, text_at, number_at, items_at};

use serde_json::{Map, Value};
use std::alloc::{AllocError, Global};

/// The JSON value of bytes, or `None` where they are no UTF-8 text of one. The only error is want of memory.
#[tactic(auto, using(crate::proofs::JsonObjectLemmas::reading))]
pub fn parse_json(alloc: Global, bytes: &[u8]) -> Result<Option<Value>, AllocError>
    ensures { IfOk result (λ value. option_map (λ v. view v) value ≡ json_of bytes.now) }
{
    let Ok(text) = std::str::from_utf8(bytes) else {
        return Ok(None);
    };
    match Value::from_str(alloc, text) {
        Ok(value) => Ok(Some(value)),
        Err(error) if error.is_memory() => Err(AllocError),
        Err(_) => Ok(None),
    }
}

// Whether the name is one of these.
fn is_known(known: &[&str], name: &str) -> bool
    ensures { result ≡ list_any (λ k. bytes_eq k.now name.now) known.now }
{
    known.iter().any(|k| *k == name)
}

// The first name of a map that isn't one of these.
fn first_unknown<'a>(known: &[&str], members: &'a Map<String, Value>) -> Option<&'a str>
    ensures value { option_map (λ name. name.now) result
        ≡ find (λ name. not (list_any (λ k. bytes_eq k.now name) known.now)) (map string_bytes (keys members.now)) }
    ensures ordered { IsStrictlySortedBy string_cmp (keys members.now) }
{
    for name in members.keys() {
        if !is_known(known, name.as_str()) {
            return Some(name.as_str());
        }
    }
    None
}

/// The first member, in byte order, with none of these names.
#[tactic(auto, unfolding(crate::specs::JsonObjects::least_unknown))]
pub fn least_unknown<'a>(known: &[&str], value: &'a Value) -> Option<&'a str>
    ensures value { option_map (λ name. name.now) result ≡ least_unknown (map (λ name. name.now) known.now) (view value.now) }
    ensures least { IfSome result (λ name. IsLeastUnknown (map (λ k. k.now) known.now) (view value.now) name.now) }
{
    match value.as_object() {
        Some(members) => first_unknown(known, members),
        None => None,
    }
}

/// The lesser of two names, in byte order; where there is but one, that one.
pub fn lesser_name<'a>(a: Option<&'a str>, b: Option<&'a str>) -> Option<&'a str>
    ensures { option_map (λ name. name.now) result
        ≡ lesser_name (option_map (λ name. name.now) a.entry) (option_map (λ name. name.now) b.entry) }
{
    match (a, b) {
        (Some(first), Some(second)) => Some(if first > second { second } else { first }),
        (Some(first), None) => Some(first),
        (None, other) => other,
    }
}

/// The text that is a member of an object.
pub fn text_at<'a>(name: &str, value: &'a Value) -> Option<&'a str>
    ensures { option_map (λ text. text.now) result ≡ text_at name.now (view value.now) }
{
    value.get(name).and_then(Value::as_str)
}

/// The whole number from 0 that is a member of an object and fits 64 bits.
pub fn number_at(name: &str, value: &Value) -> Option<u64>
    ensures { result ≡ number_at name.now (view value.now) }
{
    value.get(name).and_then(Value::as_u64)
}

/// The array that is a member of an object.
pub fn items_at<'a>(name: &str, value: &'a Value) -> Option<&'a Vec<Value>>
    ensures { option_map (λ items. items_view items.now.items) result ≡ items_at name.now (view value.now) }
{
    value.get(name).and_then(Value::as_array)
}
