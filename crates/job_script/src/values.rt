// What the JSON value of a line says.
ghost use Rattle.std.specs.Prelude.{◌≡◌, ◌≤◌, ◌&&◌, nat_le, IfOk, option_and_then, option_map};
ghost use Rattle.serde_json.specs.View.{view, items_view};
ghost use Rattle.job_script.specs.Script.{is_job, is_sized, json_of, line_of, most_rows};
ghost use Rattle.job_script.specs.Script.{row_of, row_of_parts, rows_of, upsert_of};

use crate::members::{has_members, items_at, text_at, whole_number_at};
use crate::script::{InputRow, Line};
use hudi_base::{Bytes, Sequence};
use serde_json::Value;
use std::alloc::{AllocError, Global};

const MOST_ROWS: usize = 100_000;

const MOST_KEY_BYTES: usize = 1000;

const MOST_BODY_BYTES: usize = 65_536;

// Whether key and body are as long as they may be. They are texts by their type.
fn is_sized(key: &str, body: &str) -> bool
    ensures { result ≡ is_sized key.now body.now }
{
    !key.is_empty() && key.len() <= MOST_KEY_BYTES && body.len() <= MOST_BODY_BYTES
}

// A row of these parts, if it is within the limits.
#[tactic(auto, unfolding(crate::specs::Script::row_of_parts))]
fn row_of_parts(
    alloc: Global,
    key: Option<&str>,
    rank: Option<i64>,
    body: Option<&str>,
) -> Result<Option<InputRow>, AllocError>
    ensures { IfOk result (λ row. row ≡
        row_of_parts (option_map (λ text. text.now) key.entry) rank (option_map (λ text. text.now) body.entry)) }
{
    let (Some(key), Some(rank), Some(body)) = (key, rank, body) else {
        return Ok(None);
    };
    if !is_sized(key, body) {
        return Ok(None);
    }
    Ok(Some(InputRow {
        key: Bytes::from_slice(alloc, key.as_bytes())?,
        rank,
        body: Bytes::from_slice(alloc, body.as_bytes())?,
    }))
}

// The row that a value is, if it is one.
#[tactic(auto, unfolding(crate::specs::Script::row_of))]
fn row_of(alloc: Global, value: &Value) -> Result<Option<InputRow>, AllocError>
    ensures { IfOk result (λ row. row ≡ row_of (view value.now)) }
{
    if !has_members(value, 3) {
        return Ok(None);
    }
    let key = text_at(value, "key");
    let rank = whole_number_at(value, "rank");
    let body = text_at(value, "body");
    row_of_parts(alloc, key, rank, body)
}

// The rows that all of the values are, if each is one.
#[tactic(auto, using(crate::proofs::ScriptParts::reading))]
fn rows_of(alloc: Global, values: &[Value]) -> Result<Option<Sequence<InputRow>>, AllocError>
    ensures { IfOk result (λ rows. rows ≡ rows_of (items_view values.now)) }
{
    let mut rows = Sequence::new(alloc);
    for value in values {
        match row_of(alloc, value)? {
            Some(row) => rows.push(row)?,
            None => return Ok(None),
        }
    }
    Ok(Some(rows))
}

// Whether an upsert may have so many rows.
fn is_upsert_length(count: usize) -> bool
    ensures { result ≡ (nat_le 1 count && nat_le count most_rows) }
{
    1 <= count && count <= MOST_ROWS
}

// The upsert of these values, if there are as many as it may have and each is a row.
#[tactic(auto, using(crate::proofs::ScriptParts::reading), unfolding(crate::specs::Script::upsert_of))]
fn upsert_of(alloc: Global, values: Option<&Vec<Value>>) -> Result<Option<Line>, AllocError>
    ensures { IfOk result (λ line. line ≡ upsert_of (option_map (λ items. items_view items.now.items) values.entry)) }
{
    let Some(values) = values else {
        return Ok(None);
    };
    if !is_upsert_length(values.len()) {
        return Ok(None);
    }
    match rows_of(alloc, values)? {
        Some(rows) => Ok(Some(Line::Upsert(rows))),
        None => Ok(None),
    }
}

// Whether a member is this job.
fn is_job(job: &str, text: Option<&str>) -> bool
    ensures { result ≡ is_job job.now (option_map (λ text. text.now) text.entry) }
{
    match text {
        Some(text) => text == job,
        None => false,
    }
}

// The line that a value is, if it is one.
#[tactic(auto, unfolding(crate::specs::Script::line_of))]
fn line_of(alloc: Global, value: &Value) -> Result<Option<Line>, AllocError>
    ensures { IfOk result (λ line. line ≡ line_of (view value.now)) }
{
    let job = text_at(value, "job");
    if has_members(value, 1) && is_job("snapshot", job) {
        return Ok(Some(Line::Snapshot));
    }
    if has_members(value, 2) && is_job("upsert", job) {
        return upsert_of(alloc, items_at(value, "rows"));
    }
    Ok(None)
}

/// The line that bytes are, if they are one. The only error is want of memory.
#[tactic(auto, using(crate::proofs::ScriptParts::reading), unfolding(crate::specs::Script::json_of))]
pub(crate) fn read_line(alloc: Global, line: &[u8]) -> Result<Option<Line>, AllocError>
    ensures { IfOk result (λ read. read ≡ option_and_then line_of (json_of line.now)) }
{
    let Ok(text) = std::str::from_utf8(line) else {
        return Ok(None);
    };
    match Value::from_str(alloc, text) {
        Ok(value) => line_of(alloc, &value),
        Err(error) if error.is_memory() => Err(AllocError),
        Err(_) => Ok(None),
    }
}
