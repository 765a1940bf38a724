// The snapshot.
ghost use Rattle.std.specs.Prelude.{◌≡◌, [], MatchResult};
ghost use Rattle.table_history.specs.JobLaw.{GoesOn, entries_of, phase};
ghost use Rattle.table_query.specs.Answers.{IsQueryReply, RowsHave};
ghost use Rattle.table_query.specs.GroupReading.{TableReading};
ghost use Rattle.table_query.specs.ReadBytes.{PinsAt};
ghost use Rattle.table_query.specs.Reading.{MayLeave};
ghost use Rattle.table_query.specs.Snapshots.{HasPinned, HasUnpinned};

use crate::groups::rows_of_view;
use hudi_base::{Gate, InstantTime, Place};
use std::alloc::Global;
use table_core::JobReply;
use table_history::{Reply, Step, Steps, View};
use table_jobs::TableCodec;

// Pins the view of an instant.
fn pin<T: Steps>(steps: &mut T, at: Option<InstantTime>) -> Result<View, JobReply>
    requires { T.mine steps.old ≡ [] }
    ensures job { T.job steps.new ≡ T.job steps.old }
    ensures seen { GoesOn (T.seen steps.old) (T.seen steps.new) }
    ensures later { T.later steps.old steps.new }
    ensures pins { PinsAt at (entries_of (T.mine steps.new)) }
    ensures view { MatchResult result (λ view. HasPinned view (entries_of (T.mine steps.new)))
        (λ reply. (reading : TableReading) → IsQueryReply reading at (entries_of (T.mine steps.new)) reply) }
{
    match steps.apply(Step::Pin {
        at,
        bases_only: false,
    }) {
        Reply::Pinned(view) => Ok(view),
        Reply::NotCompleted(t) => Err(JobReply::NotCompleted(t)),
        Reply::Memory => Err(JobReply::Memory),
        _ => unreachable!(),
    }
}

// Lets a pin go.
#[tactic(auto, using(crate::proofs::Leaving::may_unpin, crate::proofs::Leaving::unpinned))]
fn unpin<T: Steps>(steps: &mut T, pin: u64)
    requires { MayLeave pin (phase (entries_of (T.mine steps.old))) }
    ensures job { T.job steps.new ≡ T.job steps.old }
    ensures seen { GoesOn (T.seen steps.old) (T.seen steps.new) }
    ensures later { T.later steps.old steps.new }
    ensures gone { HasUnpinned (entries_of (T.mine steps.old)) (entries_of (T.mine steps.new)) }
{
    match steps.apply(Step::Unpin { pin }) {
        Reply::Done => {}
        _ => unreachable!(),
    }
}

/// The rows at an instant, the latest where none is named: those that the writes of the instants up to it leave which
/// were completed when it was pinned. The groups are read one after another, and none behind one whose bytes have no
/// reading. The answer is `Rows`, `NotCompleted`, `Fault`, `Damaged` or `Memory`.
pub fn snapshot<T: Steps, K: TableCodec, G: Gate>(
    alloc: Global,
    steps: &mut T,
    codec: &K,
    at: Option<InstantTime>,
    lane: u32,
    gate: &G,
) -> JobReply
    // The job has made no entry yet.
    requires new { T.mine steps.old ≡ [] }
    // The codec is that of the table.
    requires of_the_table { K.is_of codec.now (T.props steps.old) }
    ensures job { T.job steps.new ≡ T.job steps.old }
    ensures seen { GoesOn (T.seen steps.old) (T.seen steps.new) }
    ensures later { T.later steps.old steps.new }
    // The pin is at this instant. The answer is told by the job's own entries, or made of the bytes that they read, and
    // the pin is gone.
    ensures answer { IsQueryReply (record { rows = K.block_rows codec.now; table = K.table_name codec.now }) at (entries_of (T.mine steps.new)) result }
    // Its rows can be written again.
    ensures own { RowsHave (K.own_row codec.now) result }
{
    let view = match pin(steps, at) {
        Ok(view) => view,
        Err(reply) => return reply,
    };
    gate.at(lane, Place::AfterPin);
    let rows = rows_of_view(alloc, steps, codec, &view);
    unpin(steps, view.pin);
    match rows {
        Ok(rows) => JobReply::Rows(view.t, rows),
        Err(reply) => reply,
    }
}
