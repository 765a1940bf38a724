// The metadata of a file's bytes.
ghost use Rattle.std.specs.Prelude.{◌≡◌, IfOk};
ghost use Rattle.serde_json.specs.View.{view};
ghost use Rattle.table_forms.specs.JsonObjects.{json_of};
ghost use Rattle.commit_meta.specs.Metadata.{content_of, claims_in, delta_in, compact_in, bases_in, cluster_in, replaced_in, clean_in, cleaned_in, rollback_in, rolled_back_in, members_in, read_object, read_as, empty_in, object_in, meta_of, files_for, groups_for};
ghost use Rattle.commit_meta.specs.Texts.{Answers, content_in, IsWritable};

use crate::content::{Content, content_of, known_members};
use crate::members::{bad, required, with_unknown};
use crate::{
    BasesMeta, CleanPlan, ClusterPlan, CompactPlan, DeltaMeta, Meta, MetaTextError, ReplacedMeta,
    RollbackPlan,
};
use file_names::{Action, State};
use hudi_base::{Name, Sequence, Target};
use meta_parts::at_member;
use serde_json::Value;
use std::alloc::Global;
use table_forms::{least_unknown, parse_json};

#[tactic(auto, unfolding(crate::specs::Metadata::claims_in))]
fn claims(alloc: Global, table: &Name, value: &Value) -> Result<Meta, MetaTextError>
    ensures { Answers (λ meta. meta) result (claims_in table.now (view value.now)) }
{
    let groups = required(alloc, table, "groups", value)?;
    Ok(Meta::Claims(groups))
}

#[tactic(auto, unfolding(crate::specs::Metadata::delta_in))]
fn delta(alloc: Global, table: &Name, value: &Value) -> Result<Meta, MetaTextError>
    ensures { Answers (λ meta. meta) result (delta_in table.now (view value.now)) }
{
    let checkpoint = required(alloc, table, "checkpoint", value)?;
    let groups = required(alloc, table, "groups", value)?;
    Ok(Meta::Delta(DeltaMeta { checkpoint, groups }))
}

#[tactic(auto, unfolding(crate::specs::Metadata::compact_in))]
fn compact(alloc: Global, table: &Name, value: &Value) -> Result<Meta, MetaTextError>
    ensures { Answers (λ meta. meta) result (compact_in table.now (view value.now)) }
{
    let groups = required(alloc, table, "groups", value)?;
    Ok(Meta::Compact(CompactPlan { groups }))
}

#[tactic(auto, unfolding(crate::specs::Metadata::bases_in))]
fn bases(alloc: Global, table: &Name, value: &Value) -> Result<Meta, MetaTextError>
    ensures { Answers (λ meta. meta) result (bases_in table.now (view value.now)) }
{
    let bases = required(alloc, table, "bases", value)?;
    Ok(Meta::Bases(BasesMeta { bases }))
}

#[tactic(auto, unfolding(crate::specs::Metadata::cluster_in))]
fn cluster(alloc: Global, table: &Name, value: &Value) -> Result<Meta, MetaTextError>
    ensures { Answers (λ meta. meta) result (cluster_in table.now (view value.now)) }
{
    let from = required(alloc, table, "from", value)?;
    let order = required(alloc, table, "order", value)?;
    let to = required(alloc, table, "to", value)?;
    Ok(Meta::Cluster(ClusterPlan { from, order, to }))
}

#[tactic(auto, unfolding(crate::specs::Metadata::replaced_in))]
fn replaced(alloc: Global, table: &Name, value: &Value) -> Result<Meta, MetaTextError>
    ensures { Answers (λ meta. meta) result (replaced_in table.now (view value.now)) }
{
    let bases = required(alloc, table, "bases", value)?;
    let replaced = required(alloc, table, "replaced", value)?;
    Ok(Meta::Replaced(ReplacedMeta { bases, replaced }))
}

#[tactic(auto, unfolding(crate::specs::Metadata::clean_in))]
fn clean(alloc: Global, table: &Name, value: &Value) -> Result<Meta, MetaTextError>
    ensures { Answers (λ meta. meta) result (clean_in (view value.now)) }
{
    let earliest = required(alloc, table, "earliest", value)?;
    let files = required(alloc, table, "files", value)?;
    Ok(Meta::Clean(CleanPlan { earliest, files }))
}

#[tactic(auto, unfolding(crate::specs::Metadata::cleaned_in))]
fn cleaned(alloc: Global, table: &Name, value: &Value) -> Result<Meta, MetaTextError>
    ensures { Answers (λ meta. meta) result (cleaned_in (view value.now)) }
{
    let removed = required(alloc, table, "removed", value)?;
    Ok(Meta::Cleaned(removed))
}

// The files of a rollback: none where it is of a deltacommit.
fn files_for(
    alloc: Global,
    kind: Option<Action>,
    files: Sequence<Name>,
) -> Result<Sequence<Name>, MetaTextError>
    ensures { Answers (λ files. files) result (files_for kind files) }
{
    match kind {
        Some(Action::Delta) if !files.is_empty() => Err(bad(alloc, "files")),
        _ => Ok(files),
    }
}

// The groups of a rollback: none where it is of a replacecommit.
fn groups_for(
    alloc: Global,
    kind: Option<Action>,
    groups: Sequence<Target>,
) -> Result<Sequence<Target>, MetaTextError>
    ensures { Answers (λ groups. groups) result (groups_for kind groups) }
{
    match kind {
        Some(Action::Replace) if !groups.is_empty() => Err(bad(alloc, "groups")),
        _ => Ok(groups),
    }
}

#[tactic(auto, unfolding(crate::specs::Metadata::rollback_in))]
fn rollback(alloc: Global, table: &Name, value: &Value) -> Result<Meta, MetaTextError>
    ensures { Answers (λ meta. meta) result (rollback_in table.now (view value.now)) }
{
    let told_kind = at_member::<Action>(alloc, table, "kind", value)?;
    let files = files_for(alloc, told_kind, required(alloc, table, "files", value)?)?;
    let groups = groups_for(alloc, told_kind, required(alloc, table, "groups", value)?)?;
    let kind = required(alloc, table, "kind", value)?;
    let target = required(alloc, table, "target", value)?;
    Ok(Meta::Rollback(RollbackPlan {
        target,
        kind,
        groups,
        files,
    }))
}

#[tactic(auto, unfolding(crate::specs::Metadata::rolled_back_in))]
fn rolled_back(alloc: Global, table: &Name, value: &Value) -> Result<Meta, MetaTextError>
    ensures { Answers (λ meta. meta) result (rolled_back_in (view value.now)) }
{
    let target = required(alloc, table, "target", value)?;
    Ok(Meta::RolledBack(target))
}

fn members(
    alloc: Global,
    table: &Name,
    content: Content,
    value: &Value,
) -> Result<Meta, MetaTextError>
    ensures { Answers (λ meta. meta) result (members_in table.now content (view value.now)) }
{
    match content {
        Content::Claims => claims(alloc, table, value),
        Content::Delta => delta(alloc, table, value),
        Content::Compact => compact(alloc, table, value),
        Content::Bases => bases(alloc, table, value),
        Content::Cluster => cluster(alloc, table, value),
        Content::Replaced => replaced(alloc, table, value),
        Content::Clean => clean(alloc, table, value),
        Content::Cleaned => cleaned(alloc, table, value),
        Content::Rollback => rollback(alloc, table, value),
        Content::RolledBack => rolled_back(alloc, table, value),
    }
}

#[tactic(auto, unfolding(crate::specs::Metadata::read_object))]
fn read_object(
    alloc: Global,
    table: &Name,
    content: Content,
    value: &Value,
) -> Result<Meta, MetaTextError>
    ensures { Answers (λ meta. meta) result (read_object table.now content (view value.now)) }
{
    let unknown = least_unknown(known_members(content), value);
    let read = members(alloc, table, content, value);
    with_unknown(alloc, unknown, read)
}

// The object that bytes are.
fn object(alloc: Global, bytes: &[u8]) -> Result<Value, MetaTextError>
    ensures { Answers (λ value. view value) result (object_in (json_of bytes.now)) }
{
    match parse_json(alloc, bytes)? {
        Some(value) if value.is_object() => Ok(value),
        _ => Err(bad(alloc, "")),
    }
}

fn empty(alloc: Global, bytes: &[u8]) -> Result<Meta, MetaTextError>
    ensures { Answers (λ meta. meta) result (empty_in bytes.now) }
{
    if bytes.is_empty() {
        Ok(Meta::Empty)
    } else {
        Err(bad(alloc, ""))
    }
}

// The metadata of an object's kind, or of a file without one.
#[tactic(auto, unfolding(crate::specs::Metadata::read_as))]
fn read_as(
    alloc: Global,
    table: &Name,
    content: Option<Content>,
    bytes: &[u8],
) -> Result<Meta, MetaTextError>
    ensures { Answers (λ meta. meta) result (read_as table.now content bytes.now) }
{
    match content {
        Some(content) => {
            let value = object(alloc, bytes)?;
            read_object(alloc, table, content, &value)
        }
        None => empty(alloc, bytes),
    }
}

/// The metadata of a file of the timeline, whose action and state its name tells. A file without an object has to be
/// empty; any other is one JSON object with exactly the members of its kind, in any order and with white space between
/// tokens. Of a repeated member the last counts.
///
/// `BadMeta` names the first member, in byte order, that is missing, has another value than it should, or is unknown;
/// it is the empty name where the bytes are no object, or aren't empty though they should be. A file id has to be that
/// of a group of its partition in this table. A rollback of a deltacommit lists no files, and one of a replacecommit
/// no groups. What is read has a written form.
pub fn meta_parse(
    alloc: Global,
    table: &Name,
    action: Action,
    state: State,
    bytes: &[u8],
) -> Result<Meta, MetaTextError>
    ensures read { Answers (λ meta. meta) result (meta_of table.now action state bytes.now) }
    ensures writable { IfOk result (λ meta. IsWritable meta × (content_of action state ≡ content_in meta)) }
{
    read_as(alloc, table, content_of(action, state), bytes)
}
