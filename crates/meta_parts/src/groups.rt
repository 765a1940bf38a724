// Groups and slices as JSON.
ghost use Rattle.std.specs.Prelude.{◌≡◌, IfOk, is_none, map};
ghost use Rattle.serde_json.specs.View.{view};
ghost use Rattle.table_forms.specs.JsonObjects.{least_unknown};
ghost use Rattle.meta_parts.specs.Parts.{group_at, group_in, target_at, target_in, written_target_in, id_json, group_json, target_json, written_target_json};

use crate::form::{Form, at_member};
use file_names::{file_id, group_with_id};
use hudi_base::{GroupRef, InstantTime, Name, Target};
use serde_json::{Value, json};
use std::alloc::{AllocError, Global};
use table_forms::{least_unknown, text_at};

// Whether an object has no other members than these.
pub(crate) fn has_only(known: &[&str], value: &Value) -> bool
    ensures { result ≡ is_none (least_unknown (map (λ name. name.now) known.now) (view value.now)) }
{
    least_unknown(known, value).is_none()
}

// The group whose partition and file id an object's members are.
#[tactic(auto, unfolding(crate::specs::Parts::group_at))]
pub(crate) fn group_at(
    alloc: Global,
    table: &Name,
    value: &Value,
) -> Result<Option<GroupRef>, AllocError>
    ensures { IfOk result (λ found. found ≡ group_at table.now (view value.now)) }
{
    let Some(partition) = text_at("partition", value) else {
        return Ok(None);
    };
    let Some(id) = text_at("file", value) else {
        return Ok(None);
    };
    match group_with_id(alloc, table, partition, id) {
        Ok(found) => Ok(found),
        Err(_) => Err(AllocError),
    }
}

pub(crate) fn id_json(alloc: Global, table: &Name, group: &GroupRef) -> Result<Value, AllocError>
    ensures { IfOk result (λ value. view value ≡ id_json table.now group.now) }
{
    match file_id(alloc, table, group) {
        Ok(id) => id.to_json(alloc, table),
        Err(_) => Err(AllocError),
    }
}

// A group by its file id and its partition.
impl Form for GroupRef {
    ghost reads = { group_in };

    ghost writes = { group_json };

    #[tactic(auto, using(crate::proofs::Objects::members_alone), unfolding(crate::specs::Parts::group_in))]
    fn read(alloc: Global, table: &Name, value: &Value) -> Result<Option<GroupRef>, AllocError> {
        if has_only(&["file", "partition"], value) {
            group_at(alloc, table, value)
        } else {
            Ok(None)
        }
    }

    fn to_json(&self, alloc: Global, table: &Name) -> Result<Value, AllocError> {
        let id = id_json(alloc, table, self)?;
        let partition = self.partition.to_json(alloc, table)?;
        json!(in alloc; {"file": id, "partition": partition})
    }
}

#[tactic(auto, unfolding(crate::specs::Parts::target_at))]
fn target_at(alloc: Global, table: &Name, value: &Value) -> Result<Option<Target>, AllocError>
    ensures { IfOk result (λ found. found ≡ target_at table.now (view value.now)) }
{
    let Some(group) = group_at(alloc, table, value)? else {
        return Ok(None);
    };
    let Some(slice) = at_member::<InstantTime>(alloc, table, "base", value)? else {
        return Ok(None);
    };
    Ok(Some(Target { group, slice }))
}

// A group with a slice of it.
impl Form for Target {
    ghost reads = { target_in };

    ghost writes = { target_json };

    #[tactic(auto, using(crate::proofs::Objects::members_alone), unfolding(crate::specs::Parts::target_in))]
    fn read(alloc: Global, table: &Name, value: &Value) -> Result<Option<Target>, AllocError> {
        if has_only(&["base", "file", "partition"], value) {
            target_at(alloc, table, value)
        } else {
            Ok(None)
        }
    }

    fn to_json(&self, alloc: Global, table: &Name) -> Result<Value, AllocError> {
        let base = self.slice.to_json(alloc, table)?;
        let id = id_json(alloc, table, &self.group)?;
        let partition = self.group.partition.to_json(alloc, table)?;
        json!(in alloc; {"base": base, "file": id, "partition": partition})
    }
}

// A slice with the number of writes that went there.
impl Form for (Target, u32) {
    ghost reads = { written_target_in };

    ghost writes = { written_target_json };

    #[tactic(auto, using(crate::proofs::Objects::members_alone), unfolding(crate::specs::Parts::written_target_in))]
    fn read(
        alloc: Global,
        table: &Name,
        value: &Value,
    ) -> Result<Option<(Target, u32)>, AllocError> {
        if !has_only(&["base", "file", "partition", "writes"], value) {
            return Ok(None);
        }
        let Some(target) = target_at(alloc, table, value)? else {
            return Ok(None);
        };
        match at_member::<u32>(alloc, table, "writes", value)? {
            Some(writes) => Ok(Some((target, writes))),
            None => Ok(None),
        }
    }

    fn to_json(&self, alloc: Global, table: &Name) -> Result<Value, AllocError> {
        let (target, writes) = self;
        let base = target.slice.to_json(alloc, table)?;
        let id = id_json(alloc, table, &target.group)?;
        let partition = target.group.partition.to_json(alloc, table)?;
        json!(in alloc; {"base": base, "file": id, "partition": partition, "writes": *writes})
    }
}
