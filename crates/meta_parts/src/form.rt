// Values that are read from JSON and written as JSON.
ghost use Rattle.std.specs.Prelude.{◌≡◌, List, ℕ, Option, IfOk};
ghost use Rattle.serde_json.specs.Data.{Data};
ghost use Rattle.serde_json.specs.View.{view, items_view};
ghost use Rattle.meta_parts.specs.Members.{at_member, all_of, list_in};
ghost use Rattle.meta_parts.specs.Parts.{list_json};

use hudi_base::{Name, Sequence};
use serde_json::Value;
use std::alloc::{AllocError, Global};

/// A value with a form in JSON, which the table's name may be a part of: `reads` is what a JSON value is read as, and
/// `writes` what the value is written as. The only error is want of memory.
pub trait Form: Drop {
    ghost reads: { List ℕ → Data → Option Self };

    ghost writes: { List ℕ → Self → Data };

    /// The value that is read; none where the JSON value has another form.
    fn read(alloc: Global, table: &Name, value: &Value) -> Result<Option<Self>, AllocError>
        ensures { IfOk result (λ found. found ≡ reads table.now (view value.now)) };

    /// The value as JSON.
    fn to_json(&self, alloc: Global, table: &Name) -> Result<Value, AllocError>
        ensures { IfOk result (λ value. view value ≡ writes table.now self.now) };
}

/// The value of a member of an object; none where the object lacks it, or it has another form.
pub fn at_member<T: Form>(
    alloc: Global,
    table: &Name,
    name: &str,
    value: &Value,
) -> Result<Option<T>, AllocError>
    ensures { IfOk result (λ found. found ≡ at_member (T.reads table.now) name.now (view value.now)) }
{
    match value.get(name) {
        Some(inner) => T::read(alloc, table, inner),
        None => Ok(None),
    }
}

fn all_of<T: Form>(
    alloc: Global,
    table: &Name,
    values: &[Value],
) -> Result<Option<Sequence<T>>, AllocError>
    ensures { IfOk result (λ found. found ≡ all_of (T.reads table.now) (items_view values.now)) }
{
    let mut found = Sequence::new(alloc);
    for value in values {
        let Some(x) = T::read(alloc, table, value)? else {
            return Ok(None);
        };
        found.push(x)?;
    }
    Ok(Some(found))
}

// An array of values.
impl<T: Form> Form for Sequence<T> {
    ghost reads = { λ table. list_in (T.reads table) };

    ghost writes = { λ table. list_json (T.writes table) };

    fn read(alloc: Global, table: &Name, value: &Value) -> Result<Option<Sequence<T>>, AllocError> {
        match value.as_array() {
            Some(values) => all_of(alloc, table, values),
            None => Ok(None),
        }
    }

    fn to_json(&self, alloc: Global, table: &Name) -> Result<Value, AllocError> {
        let mut values = Vec::new(alloc);
        for x in self.as_slice() {
            values.push(x.to_json(alloc, table)?)?;
        }
        Ok(Value::Array(values))
    }
}
