// The bytes of metadata.
ghost use Rattle.std.specs.Prelude.{◌≡◌, Ok, IfOk, IfErr};
ghost use Rattle.serde_json.specs.View.{view};
ghost use Rattle.file_names.specs.declared.file_name.Action.{Action};
ghost use Rattle.file_names.specs.declared.file_name.State.{State};
ghost use Rattle.commit_meta.specs.Metadata.{content_of, meta_of};
ghost use Rattle.commit_meta.specs.Texts.{meta_json, meta_bytes, content_in, IsWritable};
ghost use Rattle.commit_meta.specs.declared.meta.Meta.TheVariants.{Claims, Delta, Compact, Bases, Cluster, Replaced, Clean, Cleaned, Rollback, RolledBack};
ghost use Rattle.commit_meta.specs.declared.meta_error.MetaTextError.TheVariants.{Memory};

use crate::{
    BasesMeta, CleanPlan, ClusterPlan, CompactPlan, DeltaMeta, Meta, MetaTextError, ReplacedMeta,
    RollbackPlan,
};
use hudi_base::{Bytes, InstantTime, Name, Sequence, Target};
use meta_parts::Form;
use serde_json::{Value, json};
use std::alloc::{AllocError, Global};

fn claims(alloc: Global, table: &Name, groups: &Sequence<Target>) -> Result<Value, AllocError>
    ensures { IfOk result (λ value. view value ≡ meta_json table.now (Claims groups.now)) }
{
    let groups = groups.to_json(alloc, table)?;
    json!(in alloc; {"groups": groups})
}

fn delta(alloc: Global, table: &Name, meta: &DeltaMeta) -> Result<Value, AllocError>
    ensures { IfOk result (λ value. view value ≡ meta_json table.now (Delta meta.now)) }
{
    let checkpoint = meta.checkpoint.to_json(alloc, table)?;
    let groups = meta.groups.to_json(alloc, table)?;
    json!(in alloc; {"checkpoint": checkpoint, "groups": groups})
}

fn compact(alloc: Global, table: &Name, plan: &CompactPlan) -> Result<Value, AllocError>
    ensures { IfOk result (λ value. view value ≡ meta_json table.now (Compact plan.now)) }
{
    let groups = plan.groups.to_json(alloc, table)?;
    json!(in alloc; {"groups": groups})
}

fn bases(alloc: Global, table: &Name, meta: &BasesMeta) -> Result<Value, AllocError>
    ensures { IfOk result (λ value. view value ≡ meta_json table.now (Bases meta.now)) }
{
    let bases = meta.bases.to_json(alloc, table)?;
    json!(in alloc; {"bases": bases})
}

fn cluster(alloc: Global, table: &Name, plan: &ClusterPlan) -> Result<Value, AllocError>
    ensures { IfOk result (λ value. view value ≡ meta_json table.now (Cluster plan.now)) }
{
    let from = plan.from.to_json(alloc, table)?;
    let order = plan.order.to_json(alloc, table)?;
    let to = plan.to.to_json(alloc, table)?;
    json!(in alloc; {"from": from, "order": order, "to": to})
}

fn replaced(alloc: Global, table: &Name, meta: &ReplacedMeta) -> Result<Value, AllocError>
    ensures { IfOk result (λ value. view value ≡ meta_json table.now (Replaced meta.now)) }
{
    let bases = meta.bases.to_json(alloc, table)?;
    let replaced = meta.replaced.to_json(alloc, table)?;
    json!(in alloc; {"bases": bases, "replaced": replaced})
}

fn clean(alloc: Global, table: &Name, plan: &CleanPlan) -> Result<Value, AllocError>
    ensures { IfOk result (λ value. view value ≡ meta_json table.now (Clean plan.now)) }
{
    let earliest = plan.earliest.to_json(alloc, table)?;
    let files = plan.files.to_json(alloc, table)?;
    json!(in alloc; {"earliest": earliest, "files": files})
}

fn cleaned(alloc: Global, table: &Name, removed: u32) -> Result<Value, AllocError>
    ensures { IfOk result (λ value. view value ≡ meta_json table.now (Cleaned removed)) }
{
    let removed = removed.to_json(alloc, table)?;
    json!(in alloc; {"removed": removed})
}

fn rollback(alloc: Global, table: &Name, plan: &RollbackPlan) -> Result<Value, AllocError>
    ensures { IfOk result (λ value. view value ≡ meta_json table.now (Rollback plan.now)) }
{
    let files = plan.files.to_json(alloc, table)?;
    let groups = plan.groups.to_json(alloc, table)?;
    let kind = plan.kind.to_json(alloc, table)?;
    let target = plan.target.to_json(alloc, table)?;
    json!(in alloc; {"files": files, "groups": groups, "kind": kind, "target": target})
}

fn rolled_back(alloc: Global, table: &Name, target: InstantTime) -> Result<Value, AllocError>
    ensures { IfOk result (λ value. view value ≡ meta_json table.now (RolledBack target)) }
{
    let target = target.to_json(alloc, table)?;
    json!(in alloc; {"target": target})
}

fn object(alloc: Global, table: &Name, meta: &Meta) -> Result<Value, AllocError>
    ensures { IfOk result (λ value. view value ≡ meta_json table.now meta.now) }
{
    match meta {
        Meta::Empty => Ok(Value::Null),
        Meta::Claims(groups) => claims(alloc, table, groups),
        Meta::Delta(meta) => delta(alloc, table, meta),
        Meta::Compact(plan) => compact(alloc, table, plan),
        Meta::Bases(meta) => bases(alloc, table, meta),
        Meta::Cluster(plan) => cluster(alloc, table, plan),
        Meta::Replaced(meta) => replaced(alloc, table, meta),
        Meta::Clean(plan) => clean(alloc, table, plan),
        Meta::Cleaned(removed) => cleaned(alloc, table, *removed),
        Meta::Rollback(plan) => rollback(alloc, table, plan),
        Meta::RolledBack(target) => rolled_back(alloc, table, *target),
    }
}

/// The bytes of a file with this metadata: none, or one JSON object without white space, its members in byte order.
/// Metadata that has a written form is read again from its bytes: the partitions of its groups have the form of one,
/// and a rollback is of a deltacommit, without files, or of a replacecommit, without groups. The only error is want of
/// memory.
pub fn meta_text(alloc: Global, table: &Name, meta: &Meta) -> Result<Bytes, MetaTextError>
    ensures text { IfOk result (λ bytes. bytes ≡ meta_bytes table.now meta.now) }
    ensures reads_back { IfOk result (λ bytes. IsWritable meta.now → (action : Action) (state : State)
        → content_of action state ≡ content_in meta.now → meta_of table.now action state bytes ≡ Ok meta.now) }
    ensures error { IfErr result (λ error. error ≡ Memory) }
{
    if let Meta::Empty = meta {
        return Ok(Bytes::from_vec(Vec::new(alloc)));
    }
    let value = object(alloc, table, meta)?;
    let bytes = value.to_vec(alloc)?;
    Ok(Bytes::from_vec(bytes))
}
