// The jobs of a script, one after another.
ghost use Rattle.std.specs.Prelude.{◌≡◌, [], MatchResult, List, map};
ghost use Rattle.row_codec.specs.Codec.{IsOfTable};
ghost use Rattle.row_values.specs.RowCells.{IsOwnRow};
ghost use Rattle.script_jobs.specs.Limits.{IsInPhase};
ghost use Rattle.script_jobs.specs.Scripts.{said_job};
ghost use Rattle.script_run.specs.Parts.{AreBelow, AreFrom, RanNext, RanSoFar, StoppedAt};
ghost use Rattle.script_run.specs.Runs.{RanLine};
ghost use Rattle.table_board.specs.Later.{IsLater};
ghost use Rattle.table_query.specs.Answers.{RowsHave};

use crate::gate::OpenGate;
use crate::lines::run_job;
use crate::printing::is_failure;
use hudi_base::{Clock, Store};
use row_codec::FlatCodec;
use script_jobs::{Job, Jobs};
use script_texts::put_job_text;
use std::alloc::{AllocError, Global};
use table_board::Solo;
use table_core::JobReply;
use upsert_writer::AnyBatch;

// Does the next job.
fn run_next<S: Store, C: Clock>(
    alloc: Global,
    codec: &FlatCodec,
    job: &Job,
    solo: &mut Solo<S, C, AnyBatch>,
) -> JobReply
    requires below { AreBelow job.now.line solo.old.board.entries }
    requires within { IsInPhase 1 (said_job job.now) }
    requires of_the_table { IsOfTable codec.now.records.own solo.old.board.origin.props }
    ensures ran { RanLine (record { props = solo.old.board.origin.props; layout = codec.now.records.own })
        ⊥ (said_job job.now) solo.old.board.entries solo.new.board.entries result }
    ensures own { RowsHave (IsOwnRow codec.now.records.own) result }
    ensures later { IsLater solo.old.board.origin solo.new.board.origin (S.is_honest solo.old.board.store)
        (S.is_honest solo.new.board.store) (S.state solo.old.board.store) (S.state solo.new.board.store)
        (C.state solo.old.board.clock) (C.state solo.new.board.clock) }
{
    solo.set_job(job.lane, job.line);
    run_job(alloc, solo, codec, job, &OpenGate {})
}

// Does the next job and adds its line to the text. The only error is want of memory for the line. It answers whether
// the job failed.
fn run_line<S: Store, C: Clock>(
    alloc: Global,
    codec: &FlatCodec,
    job: Job,
    solo: &mut Solo<S, C, AnyBatch>,
    text: &mut Vec<u8>,
) -> Result<bool, AllocError>
    requires below { AreBelow job.line solo.old.board.entries }
    requires within { IsInPhase 1 (said_job job) }
    requires of_the_table { IsOfTable codec.now.records.own solo.old.board.origin.props }
    ensures ran { RanNext (record { props = solo.old.board.origin.props; layout = codec.now.records.own })
        (said_job job) solo.old.board.entries solo.new.board.entries result text.old.items text.new.items }
    ensures later { IsLater solo.old.board.origin solo.new.board.origin (S.is_honest solo.old.board.store)
        (S.is_honest solo.new.board.store) (S.state solo.old.board.store) (S.state solo.new.board.store)
        (C.state solo.old.board.clock) (C.state solo.new.board.clock) }
{
    let reply = run_next(alloc, codec, &job, solo);
    match put_job_text(alloc, text, codec, &job, &reply) {
        Ok(()) => Ok(is_failure(&reply)),
        Err(error) => Err(error),
    }
}

/// Does jobs in order, and adds the line of each to the text. The only error is want of memory for a line, and then no
/// later job is done. It answers whether a job failed.
pub(crate) fn run_jobs<S: Store, C: Clock>(
    alloc: Global,
    codec: &FlatCodec,
    jobs: Jobs,
    solo: &mut Solo<S, C, AnyBatch>,
    text: &mut Vec<u8>,
) -> Result<bool, AllocError>
    requires fresh { solo.old.board.entries ≡ [] }
    requires from { AreFrom 1 (map said_job jobs) }
    requires of_the_table { IsOfTable codec.now.records.own solo.old.board.origin.props }
    ensures ran { MatchResult result
        (λ failed. RanSoFar (record { props = solo.old.board.origin.props; layout = codec.now.records.own })
        text.old.items (map said_job jobs) solo.new.board.entries text.new.items failed)
        (λ _. StoppedAt (record { props = solo.old.board.origin.props; layout = codec.now.records.own })
        text.old.items (map said_job jobs) solo.new.board.entries text.new.items) }
    ensures later { IsLater solo.old.board.origin solo.new.board.origin (S.is_honest solo.old.board.store)
        (S.is_honest solo.new.board.store) (S.state solo.old.board.store) (S.state solo.new.board.store)
        (C.state solo.old.board.clock) (C.state solo.new.board.clock) }
{
    let mut failed = false;
    for job in jobs.into_vec() {
        let fails = run_line(alloc, codec, job, solo, text)?;
        failed = failed || fails;
    }
    Ok(failed)
}
