// The rows that values make.
ghost use Rattle.table_jobs.specs.NewRows.{AnswersNewRow};
ghost use Rattle.plain_rows.specs.PlainValues.{IsPlainValue, row_of_fields, row_of_value};

use crate::reading::{MOST_BODY_BYTES, MOST_KEY_BYTES};
use hudi_base::{Bytes, InstantTime, Name, Value};
use payload_merge::{Row, RowError};
use std::alloc::Global;

// The row of these fields.
#[tactic(auto, using(crate::proofs::NewRows::fields_row, crate::proofs::NewRows::fields_keyless, crate::proofs::NewRows::fields_large))]
fn row_of_fields(alloc: Global, key: &Name, rank: i64, body: &Name) -> Result<Row, RowError>
    ensures { AnswersNewRow (row_of_fields key.now rank body.now) result }
{
    let (key, body) = (key.as_slice(), body.as_slice());
    if key.is_empty() || key.len() > MOST_KEY_BYTES {
        return Err(RowError::NoKey);
    }
    if body.len() > MOST_BODY_BYTES {
        return Err(RowError::TooLarge);
    }
    Ok(Row {
        partition: Name::from_text(alloc, "x")?,
        key: Bytes::from_slice(alloc, key)?,
        rank,
        commit: InstantTime::FIRST,
        seq: 0,
        body: Bytes::from_slice(alloc, body)?,
    })
}

/// The row that a record of a key, a rank and a body makes, in the one partition.
pub(crate) fn new_row(alloc: Global, value: &Value) -> Result<Row, RowError>
    requires { IsPlainValue value.now }
    ensures { AnswersNewRow (row_of_value value.now) result }
{
    let Value::Record(values) = value else {
        unreachable!();
    };
    match values.as_slice() {
        [Value::Text(key), Value::Long(rank), Value::Text(body)] => {
            row_of_fields(alloc, key, *rank, body)
        }
        _ => unreachable!(),
    }
}
