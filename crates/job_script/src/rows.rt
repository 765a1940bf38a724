// The rows of an upsert as values of a table.
ghost use Rattle.std.specs.Prelude.{◌≡◌, IfOk};
ghost use Rattle.job_script.specs.Rows.{IsSized, value_of_input};

use crate::script::InputRow;
use hudi_base::{Name, Value, Values};
use std::alloc::{AllocError, Global};

/// A row of an upsert as a value: the record of its key, its rank and its body. The only error is want of memory.
pub fn value_of_input(alloc: Global, row: &InputRow) -> Result<Value, AllocError>
    requires { IsSized row.now }
    ensures { IfOk result (λ made. made ≡ value_of_input row.now) }
{
    let mut fields = Values::new(alloc);
    fields.push(Value::Text(Name::from_slice(alloc, row.key.as_slice())?))?;
    fields.push(Value::Long(row.rank))?;
    fields.push(Value::Text(Name::from_slice(alloc, row.body.as_slice())?))?;
    Ok(Value::Record(fields))
}
