// The keys of a `delete` line.
ghost use Rattle.std.specs.Prelude.{◌≡◌, IfOk, option_map, option_and_then};
ghost use Rattle.serde_json.specs.View.{view, items_view};
ghost use Rattle.table_forms.specs.JsonObjects.{least_unknown};
ghost use Rattle.script_jobs.specs.DeletedKeys.{key_members, key_of, keys_of, rank_of};
ghost use Rattle.script_jobs.specs.Jobs.{keys_in};

use crate::json_rows::is_item_count;
use hudi_base::{Bytes, Name, Sequence};
use serde_json::Value;
use std::alloc::{AllocError, Global};
use table_forms::{items_at, least_unknown, text_at};
use table_jobs::{DelKey, DelKeys};

// The rank that a member says, which may be missing.
fn rank_of(rank: Option<&Value>) -> Option<Option<i64>>
    ensures { result ≡ rank_of (option_map (λ d. view d.now) rank.entry) }
{
    match rank {
        None => Some(None),
        Some(rank) => match rank.as_i64() {
            Some(rank) => Some(Some(rank)),
            None => None,
        },
    }
}

fn unknown_in_key(key: &Value) -> Option<&str>
    ensures { option_map (λ name. name.now) result ≡ least_unknown key_members (view key.now) }
{
    least_unknown(&["partition", "key", "rank"], key)
}

// The key that a value is, if it is one.
#[tactic(auto, unfolding(crate::specs::DeletedKeys::key_of))]
fn key_of(alloc: Global, value: &Value) -> Result<Option<DelKey>, AllocError>
    ensures { IfOk result (λ key. key ≡ key_of (view value.now)) }
{
    let Some(partition) = text_at("partition", value) else {
        return Ok(None);
    };
    let Some(key) = text_at("key", value) else {
        return Ok(None);
    };
    let Some(rank) = rank_of(value.get("rank")) else {
        return Ok(None);
    };
    if unknown_in_key(value).is_some() {
        return Ok(None);
    }
    Ok(Some(DelKey {
        partition: Name::from_text(alloc, partition)?,
        key: Bytes::from_slice(alloc, key.as_bytes())?,
        rank,
    }))
}

// The keys that all of the values are, if each is one.
#[tactic(auto, using(crate::proofs::KeyParts::reading))]
fn keys_of(alloc: Global, values: &[Value]) -> Result<Option<DelKeys>, AllocError>
    ensures { IfOk result (λ keys. keys ≡ keys_of (items_view values.now)) }
{
    let mut keys = Sequence::new(alloc);
    for value in values {
        match key_of(alloc, value)? {
            Some(key) => keys.push(key)?,
            None => return Ok(None),
        }
    }
    Ok(Some(keys))
}

/// The keys of a line, if it has 1 to 100,000 and nothing else in their place.
#[tactic(auto, using(crate::proofs::KeyParts::reading))]
pub(crate) fn keys_in(alloc: Global, line: &Value) -> Result<Option<DelKeys>, AllocError>
    ensures { IfOk result (λ keys. keys ≡ keys_in (view line.now)) }
{
    let Some(values) = items_at("keys", line) else {
        return Ok(None);
    };
    if !is_item_count(values.len()) {
        return Ok(None);
    }
    keys_of(alloc, values)
}
