// What a line says.
ghost use Rattle.std.specs.Prelude.{◌≡◌, IfOk, option_map, option_and_then};
ghost use Rattle.serde_json.specs.View.{view};
ghost use Rattle.table_forms.specs.JsonObjects.{least_unknown};
ghost use Rattle.script_jobs.specs.Causes.{Answers};
ghost use Rattle.script_jobs.specs.Drafts.{laned, said_draft};
ghost use Rattle.script_jobs.specs.Jobs.{at_of, delete_members, delete_of, job_of, lane_in, lane_of, members_of, said_of, snapshot_members, snapshot_of, upsert_members, upsert_of};

use crate::deletes::keys_in;
use crate::fault::Fault;
use crate::init::init_of;
use crate::json_rows::has_rows;
use crate::kind::{JobKind, kind_in};
use hudi_base::InstantTime;
use serde_json::Value;
use std::alloc::Global;
use table_forms::least_unknown;
use table_jobs::DelKeys;
use table_props::Props;

// What a line says, but for the rows of an upsert, which stay in the line.
#[derive(Drop)]
pub(crate) enum Draft {
    Init(Props),
    Upsert,
    Delete(DelKeys),
    Snapshot(Option<InstantTime>),
}

// The lane that a member says.
fn lane_of(lanes: u32, lane: Option<&Value>) -> Option<u32>
    ensures { result ≡ lane_of lanes (option_map (λ d. view d.now) lane.entry) }
{
    let Some(lane) = lane else {
        return Some(1);
    };
    match lane.as_u64() {
        Some(lane) if 1 <= lane && lane <= u64::from(lanes) => Some(lane as u32),
        _ => None,
    }
}

fn lane_in(kind: JobKind, lanes: u32, line: &Value) -> Option<u32>
    ensures { result ≡ lane_in kind lanes (view line.now) }
{
    let lane = line.get("lane");
    match kind {
        JobKind::Init if lane.is_some() => None,
        JobKind::Init => Some(1),
        _ => lane_of(lanes, lane),
    }
}

fn unknown_in_upsert(line: &Value) -> Option<&str>
    ensures { option_map (λ name. name.now) result ≡ least_unknown upsert_members (view line.now) }
{
    least_unknown(&["job", "lane", "rows"], line)
}

#[tactic(auto, unfolding(crate::specs::Jobs::upsert_of))]
fn upsert_of(line: &Value) -> Result<Draft, Fault<'_>>
    ensures { Answers (said_draft (view line.now)) result (upsert_of (view line.now)) }
{
    if !has_rows(line) {
        return Err(Fault::Field("rows"));
    }
    match unknown_in_upsert(line) {
        Some(name) => Err(Fault::Field(name)),
        None => Ok(Draft::Upsert),
    }
}

fn unknown_in_delete(line: &Value) -> Option<&str>
    ensures { option_map (λ name. name.now) result ≡ least_unknown delete_members (view line.now) }
{
    least_unknown(&["job", "lane", "keys"], line)
}

#[tactic(auto, unfolding(crate::specs::Jobs::delete_of))]
fn delete_of(alloc: Global, line: &Value) -> Result<Draft, Fault<'_>>
    ensures { Answers (said_draft (view line.now)) result (delete_of (view line.now)) }
{
    let Some(keys) = keys_in(alloc, line)? else {
        return Err(Fault::Field("keys"));
    };
    match unknown_in_delete(line) {
        Some(name) => Err(Fault::Field(name)),
        None => Ok(Draft::Delete(keys)),
    }
}

// The time that a member says, which may be missing.
fn at_of(at: Option<&Value>) -> Option<Option<InstantTime>>
    ensures { result ≡ at_of (option_map (λ d. view d.now) at.entry) }
{
    let Some(at) = at else {
        return Some(None);
    };
    match InstantTime::from_text(at.as_str()?.as_bytes()) {
        Some(time) => Some(Some(time)),
        None => None,
    }
}

fn unknown_in_snapshot(line: &Value) -> Option<&str>
    ensures { option_map (λ name. name.now) result ≡ least_unknown snapshot_members (view line.now) }
{
    least_unknown(&["job", "lane", "at"], line)
}

#[tactic(auto, unfolding(crate::specs::Jobs::snapshot_of))]
fn snapshot_of(line: &Value) -> Result<Draft, Fault<'_>>
    ensures { Answers (said_draft (view line.now)) result (snapshot_of (view line.now)) }
{
    let Some(at) = at_of(line.get("at")) else {
        return Err(Fault::Field("at"));
    };
    match unknown_in_snapshot(line) {
        Some(name) => Err(Fault::Field(name)),
        None => Ok(Draft::Snapshot(at)),
    }
}

// What a line of a kind says.
fn said_of(alloc: Global, kind: JobKind, line: &Value) -> Result<Draft, Fault<'_>>
    ensures { Answers (said_draft (view line.now)) result (said_of kind (view line.now)) }
{
    match kind {
        JobKind::Init => Ok(Draft::Init(init_of(alloc, line)?)),
        JobKind::Upsert => upsert_of(line),
        JobKind::Delete => delete_of(alloc, line),
        JobKind::Snapshot => snapshot_of(line),
    }
}

// The lane of an object and what it says.
#[tactic(auto, unfolding(crate::specs::Jobs::members_of))]
fn members_of(alloc: Global, lanes: u32, line: &Value) -> Result<(u32, Draft), Fault<'_>>
    ensures { Answers (laned (view line.now)) result (members_of lanes (view line.now)) }
{
    let Some(kind) = kind_in(line) else {
        return Err(Fault::Field("job"));
    };
    let Some(lane) = lane_in(kind, lanes, line) else {
        return Err(Fault::Field("lane"));
    };
    let said = said_of(alloc, kind, line)?;
    Ok((lane, said))
}

/// The lane of a JSON value and what it says, or why it is no job.
pub(crate) fn job_of(alloc: Global, lanes: u32, line: &Value) -> Result<(u32, Draft), Fault<'_>>
    ensures { Answers (laned (view line.now)) result (job_of lanes (view line.now)) }
{
    match line {
        Value::Object(_) => members_of(alloc, lanes, line),
        _ => Err(Fault::Object),
    }
}
