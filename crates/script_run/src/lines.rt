// The job of one line.
ghost use Rattle.std.specs.Prelude.{◌≡◌, List, [], map, All, IfOk};
ghost use Rattle.avro_schema.specs.Fits.{Fits};
ghost use Rattle.row_codec.specs.Codec.{IsOfTable};
ghost use Rattle.row_values.specs.Layouts.{own_type};
ghost use Rattle.row_values.specs.RowCells.{IsOwnRow};
ghost use Rattle.script_jobs.specs.Jobs.{delete, upsert};
ghost use Rattle.script_jobs.specs.Limits.{IsOther};
ghost use Rattle.script_jobs.specs.RowViews.{rows_view};
ghost use Rattle.script_jobs.specs.Scripts.{said};
ghost use Rattle.script_run.specs.Lines.{AnswersLine, batch_of, blocks_of, given_row};
ghost use Rattle.serde_json.specs.View.{view};
ghost use Rattle.table_history.specs.JobLaw.{GoesOn, entries_of};
ghost use Rattle.table_history.specs.declared.step.PartitionSlots.{PartitionSlots};
ghost use Rattle.table_query.specs.Answers.{RowsHave};
ghost use Rattle.upsert_writer.specs.BatchFits.{IsFit};
ghost use Rattle.upsert_writer.specs.Blocks.{HoldsEach};
ghost use Rattle.upsert_writer.specs.Slots.{AreSlotsOf};

use hudi_base::{Gate, Place, Sequence};
use payload_merge::RowError;
use row_codec::FlatCodec;
use script_jobs::{Job, JsonRows, What};
use serde_json::Value as Json;
use std::alloc::{AllocError, Global};
use table_core::JobReply;
use table_history::Steps;
use table_jobs::{DelKey, DelKeys};
use table_query::snapshot;
use upsert_writer::{Batch, PutRow, PutRows, write_batch};

// A row of a line as a writer is given it.
fn given_row(alloc: Global, codec: &FlatCodec, row: &Json) -> Result<PutRow, AllocError>
    ensures row { IfOk result (λ given. given ≡ given_row codec.now.records.own (view row.now)) }
    ensures fits { IfOk result (IsFit (Fits (own_type codec.now.records.own))) }
{
    match codec.value_of_json(alloc, row) {
        Ok(value) => Ok(PutRow::Fits(value)),
        Err(RowError::Mismatch(field)) => Ok(PutRow::Mismatch(field)),
        Err(_) => Err(AllocError),
    }
}

// The rows of a line.
fn given_rows(alloc: Global, codec: &FlatCodec, rows: &[Json]) -> Result<PutRows, AllocError>
    ensures rows { IfOk result (λ given. given ≡ map (λ row. given_row codec.now.records.own (view row)) rows.now) }
    ensures fit { IfOk result (All (IsFit (Fits (own_type codec.now.records.own)))) }
{
    let mut given = Sequence::new(alloc);
    for row in rows {
        given.push(given_row(alloc, codec, row)?)?;
    }
    Ok(given)
}

// The keys of a line.
fn given_keys(alloc: Global, keys: &[DelKey]) -> Result<DelKeys, AllocError>
    ensures { IfOk result (λ given. given ≡ keys.now) }
{
    let mut given = Sequence::new(alloc);
    for key in keys {
        given.push(DelKey {
            partition: key.partition.copy(alloc)?,
            key: key.key.copy(alloc)?,
            rank: key.rank,
        })?;
    }
    Ok(given)
}

// Writes the rows of a line.
fn upsert<T: Steps, G: Gate>(
    alloc: Global,
    steps: &mut T,
    codec: &FlatCodec,
    rows: &JsonRows,
    lane: u32,
    gate: &G,
) -> JobReply
    requires new { T.mine steps.old ≡ [] }
    requires of_the_table { IsOfTable codec.now.records.own (T.props steps.old) }
    requires other { IsOther (upsert (rows_view rows.now)) }
    requires asks { IfOk (batch_of codec.now.records.own (upsert (rows_view rows.now)))
        (λ batch. (slots : List PartitionSlots) → AreSlotsOf batch slots → T.asks (T.job steps.old) slots) }
    requires holds { IfOk (batch_of codec.now.records.own (upsert (rows_view rows.now)))
        (HoldsEach T.holds (T.job steps.old) (blocks_of codec.now.records.own)) }
    ensures job { T.job steps.new ≡ T.job steps.old }
    ensures seen { GoesOn (T.seen steps.old) (T.seen steps.new) }
    ensures later { T.later steps.old steps.new }
    ensures answer { AnswersLine codec.now.records.own (upsert (rows_view rows.now)) (entries_of (T.mine steps.new)) result }
    ensures own { RowsHave (IsOwnRow codec.now.records.own) result }
{
    match given_rows(alloc, codec, rows.as_slice()) {
        Ok(given) => write_batch(alloc, steps, codec, Batch::Puts(given), lane, gate),
        Err(_) => JobReply::Memory,
    }
}

// Deletes the keys of a line.
fn delete<T: Steps, G: Gate>(
    alloc: Global,
    steps: &mut T,
    codec: &FlatCodec,
    keys: &DelKeys,
    lane: u32,
    gate: &G,
) -> JobReply
    requires new { T.mine steps.old ≡ [] }
    requires of_the_table { IsOfTable codec.now.records.own (T.props steps.old) }
    requires other { IsOther (delete keys.now) }
    requires asks { IfOk (batch_of codec.now.records.own (delete keys.now))
        (λ batch. (slots : List PartitionSlots) → AreSlotsOf batch slots → T.asks (T.job steps.old) slots) }
    requires holds { IfOk (batch_of codec.now.records.own (delete keys.now))
        (HoldsEach T.holds (T.job steps.old) (blocks_of codec.now.records.own)) }
    ensures job { T.job steps.new ≡ T.job steps.old }
    ensures seen { GoesOn (T.seen steps.old) (T.seen steps.new) }
    ensures later { T.later steps.old steps.new }
    ensures answer { AnswersLine codec.now.records.own (delete keys.now) (entries_of (T.mine steps.new)) result }
    ensures own { RowsHave (IsOwnRow codec.now.records.own) result }
{
    match given_keys(alloc, keys.as_slice()) {
        Ok(given) => write_batch(alloc, steps, codec, Batch::Dels(given), lane, gate),
        Err(_) => JobReply::Memory,
    }
}

/// Does a job, which doesn't make the table: an upsert writes its rows as one batch and a delete its keys, and a snapshot
/// queries the instant that it names, or the latest one. The gate is called before the first step, at the job's places
/// and after the last step. The answer is the job's, `Memory` also where the rows or keys of a line find no room; its
/// rows, if it has any, are rows of the codec's table.
pub fn run_job<T: Steps, G: Gate>(
    alloc: Global,
    steps: &mut T,
    codec: &FlatCodec,
    job: &Job,
    gate: &G,
) -> JobReply
    // The job has made no entry yet.
    requires new { T.mine steps.old ≡ [] }
    // The codec is that of the table.
    requires of_the_table { IsOfTable codec.now.records.own (T.props steps.old) }
    // The job is one of a phase: it doesn't make the table, and has as many rows or keys as a line may have.
    requires other { IsOther (said job.now.what) }
    // The table takes the batch as the job's: the slots that are asked for, and the blocks that may be written of it.
    requires asks { IfOk (batch_of codec.now.records.own (said job.now.what))
        (λ batch. (slots : List PartitionSlots) → AreSlotsOf batch slots → T.asks (T.job steps.old) slots) }
    requires holds { IfOk (batch_of codec.now.records.own (said job.now.what))
        (HoldsEach T.holds (T.job steps.old) (blocks_of codec.now.records.own)) }
    ensures job { T.job steps.new ≡ T.job steps.old }
    ensures seen { GoesOn (T.seen steps.old) (T.seen steps.new) }
    ensures later { T.later steps.old steps.new }
    // The answer is the one that the job's own entries tell, and these carry the batch.
    ensures answer { AnswersLine codec.now.records.own (said job.now.what) (entries_of (T.mine steps.new)) result }
    ensures own { RowsHave (IsOwnRow codec.now.records.own) result }
{
    gate.at(job.lane, Place::Start);
    let reply = match &job.what {
        What::Init(_) => unreachable!(),
        What::Upsert { rows } => upsert(alloc, steps, codec, rows, job.lane, gate),
        What::Delete { keys } => delete(alloc, steps, codec, keys, job.lane, gate),
        What::Snapshot { at } => snapshot(alloc, steps, codec, *at, job.lane, gate),
    };
    gate.at(job.lane, Place::Done);
    reply
}
