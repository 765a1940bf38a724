// Members of a JSON object.
ghost use Rattle.std.specs.Prelude.{◌≡◌, option_map};
ghost use Rattle.serde_json.specs.View.{view, items_view};
ghost use Rattle.job_script.specs.Script.{has_members, items_at, text_at, whole_number_at};

use serde_json::Value;

/// Whether the value is an object with so many members.
pub(crate) fn has_members(value: &Value, count: usize) -> bool
    ensures { result ≡ has_members count (view value.now) }
{
    match value.as_object() {
        Some(members) => members.len() == count,
        None => false,
    }
}

/// The text that is a member of an object.
pub(crate) fn text_at<'a>(value: &'a Value, name: &str) -> Option<&'a str>
    ensures { option_map (λ text. text.now) result ≡ text_at name.now (view value.now) }
{
    value.get(name).and_then(Value::as_str)
}

/// The whole number that is a member of an object.
pub(crate) fn whole_number_at(value: &Value, name: &str) -> Option<i64>
    ensures { result ≡ whole_number_at name.now (view value.now) }
{
    value.get(name).and_then(Value::as_i64)
}

/// The array that is a member of an object.
pub(crate) fn items_at<'a>(value: &'a Value, name: &str) -> Option<&'a Vec<Value>>
    ensures { option_map (λ items. items_view items.now.items) result ≡ items_at name.now (view value.now) }
{
    value.get(name).and_then(Value::as_array)
}
