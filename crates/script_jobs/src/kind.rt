// The kinds of jobs.
ghost use Rattle.std.specs.Prelude.{◌≡◌};
ghost use Rattle.serde_json.specs.View.{view};
ghost use Rattle.script_jobs.specs.Jobs.{kind_of, kind_in};

use serde_json::Value;
use table_forms::text_at;

#[derive(Clone, Copy)]
pub(crate) enum JobKind {
    Init,
    Upsert,
    Delete,
    Snapshot,
}

// The kind of this name.
#[tactic(auto, unfolding(crate::specs::Jobs::kind_of))]
fn kind_of(name: &str) -> Option<JobKind>
    ensures { result ≡ kind_of name.now }
{
    if name == "init" {
        Some(JobKind::Init)
    } else if name == "upsert" {
        Some(JobKind::Upsert)
    } else if name == "delete" {
        Some(JobKind::Delete)
    } else if name == "snapshot" {
        Some(JobKind::Snapshot)
    } else {
        None
    }
}

// The kind that a line says.
pub(crate) fn kind_in(line: &Value) -> Option<JobKind>
    ensures { result ≡ kind_in (view line.now) }
{
    match text_at("job", line) {
        Some(name) => kind_of(name),
        None => None,
    }
}
