// The writer.
ghost use Rattle.std.specs.Prelude.{◌≡◌, ◌<◌, ◌+◌, ℕ, List, [], Some, length, slice_get, All, IfOk, MatchResult};
ghost use Rattle.hudi_base.specs.declared.file_group.Target.{Target};
ghost use Rattle.table_history.specs.JobLaw.{Allows, Drawn, GoesOn, Writes, entries_of, phase};
ghost use Rattle.table_history.specs.declared.step.PartitionSlots.{PartitionSlots};
ghost use Rattle.table_history.specs.declared.step.Step.TheVariants.{Abandon};
ghost use Rattle.table_forms.specs.NameForms.{IsPartitionPath};
ghost use Rattle.table_jobs.specs.Replies.{IsWriterReply};
ghost use Rattle.payload_merge.specs.Fold.{writes_from};
ghost use Rattle.payload_merge.specs.declared.row.Write.{Write};
ghost use Rattle.upsert_writer.specs.Answers.{AnswersBatch};
ghost use Rattle.upsert_writer.specs.BatchFits.{BatchFits};
ghost use Rattle.upsert_writer.specs.BatchWrites.{batch_in};
ghost use Rattle.upsert_writer.specs.Batches.{batch_writes};
ghost use Rattle.upsert_writer.specs.Blocks.{BlockForm, HoldsEach};
ghost use Rattle.upsert_writer.specs.Making.{CanBeWritten};
ghost use Rattle.upsert_writer.specs.Slots.{AreSlotsOf};
ghost use Rattle.upsert_writer.specs.TargetWrites.{MayWrite, MayWriteEach, writes_of_each};
ghost use Rattle.upsert_writer.specs.WriterSteps.{WritesBatch};
ghost use Rattle.upsert_writer.specs.Writers.{IsAt, IsLeft, WritesOn};

use crate::Batch;
use crate::blocks::block_of;
use crate::making::writes_of;
use crate::sharing::parts_at;
use crate::slots::slots_of;
use hudi_base::{Gate, InstantTime, Place, Sequence, Target};
use payload_merge::Writes;
use std::alloc::Global;
use table_core::JobReply;
use table_history::{PartitionSlots, Reply, Step, Steps};
use table_jobs::TableCodec;

// Leaves an instant pending.
#[tactic(auto, using(crate::proofs::Leaving::leaving))]
fn leave<T: Steps>(steps: &mut T, t: InstantTime)
    requires { Allows (record { Asks = T.asks; Holds = T.holds }) (T.job steps.old) (phase (entries_of (T.mine steps.old))) (Abandon t) }
    ensures job { T.job steps.new ≡ T.job steps.old }
    ensures seen { GoesOn (T.seen steps.old) (T.seen steps.new) }
    ensures later { T.later steps.old steps.new }
    ensures wrote { (form : BlockForm) (batch : List Write) → WritesOn form batch (entries_of (T.mine steps.old)) (entries_of (T.mine steps.new)) }
    ensures left { IsLeft (entries_of (T.mine steps.old)) (entries_of (T.mine steps.new)) }
{
    match steps.apply(Step::Abandon { t }) {
        Reply::Done => {}
        _ => unreachable!(),
    }
}

// Draws the instant.
fn begin<T: Steps>(steps: &mut T) -> Result<InstantTime, JobReply>
    requires { T.mine steps.old ≡ [] }
    ensures job { T.job steps.new ≡ T.job steps.old }
    ensures seen { GoesOn (T.seen steps.old) (T.seen steps.new) }
    ensures later { T.later steps.old steps.new }
    ensures wrote { (form : BlockForm) (batch : List Write) → WritesOn form batch (entries_of (T.mine steps.old)) (entries_of (T.mine steps.new)) }
    ensures answer { MatchResult result (λ t. IsAt (Drawn t) (entries_of (T.mine steps.new)))
        (λ reply. IsWriterReply (entries_of (T.mine steps.new)) reply) }
{
    match steps.apply(Step::Begin {}) {
        Reply::Began(t) => Ok(t),
        Reply::TimeOver => Err(JobReply::TimeOver),
        Reply::Fault => Err(JobReply::Fault),
        Reply::Damaged(name, cause) => Err(JobReply::Damaged(name, cause, 0)),
        Reply::Memory => Err(JobReply::Memory),
        _ => unreachable!(),
    }
}

// Asks for the targets of the slots.
#[tactic(auto, using(table_jobs::proofs::Seen::goes_on))]
fn enter<T: Steps>(
    steps: &mut T,
    t: InstantTime,
    slots: Sequence<PartitionSlots>,
) -> Result<Sequence<Target>, JobReply>
    requires drawn { IsAt (Drawn t) (entries_of (T.mine steps.old)) }
    requires paths { All (λ asked. IsPartitionPath asked.partition) slots }
    requires asks { T.asks (T.job steps.old) slots }
    ensures job { T.job steps.new ≡ T.job steps.old }
    ensures seen { GoesOn (T.seen steps.old) (T.seen steps.new) }
    ensures later { T.later steps.old steps.new }
    ensures wrote { (form : BlockForm) (batch : List Write) → AreSlotsOf batch slots → WritesOn form batch (entries_of (T.mine steps.old)) (entries_of (T.mine steps.new)) }
    ensures answer { MatchResult result (λ targets. IsAt (Writes t targets 0) (entries_of (T.mine steps.new)))
        (λ reply. IsWriterReply (entries_of (T.mine steps.new)) reply) }
{
    match steps.apply(Step::Enter { t, slots }) {
        Reply::Entered(targets) => Ok(targets),
        Reply::Fault => {
            leave(steps, t);
            Err(JobReply::Fault)
        }
        Reply::Damaged(name, cause) => {
            leave(steps, t);
            Err(JobReply::Damaged(name, cause, 0))
        }
        Reply::Memory => {
            leave(steps, t);
            Err(JobReply::Memory)
        }
        _ => unreachable!(),
    }
}

// Completes the instant.
#[tactic(auto, using(table_jobs::proofs::Seen::goes_on))]
fn finish<T: Steps>(steps: &mut T, t: InstantTime, targets: &[Target]) -> JobReply
    requires { IsAt (Writes t targets.now (length targets.now)) (entries_of (T.mine steps.old)) }
    ensures job { T.job steps.new ≡ T.job steps.old }
    ensures seen { GoesOn (T.seen steps.old) (T.seen steps.new) }
    ensures later { T.later steps.old steps.new }
    ensures wrote { (form : BlockForm) (batch : List Write) → WritesOn form batch (entries_of (T.mine steps.old)) (entries_of (T.mine steps.new)) }
    ensures answer { IsWriterReply (entries_of (T.mine steps.new)) result }
{
    match steps.apply(Step::Finish {
        t,
        checkpoint: None,
    }) {
        Reply::Completed(t) => JobReply::Committed(t),
        Reply::Fault => {
            leave(steps, t);
            JobReply::Fault
        }
        Reply::Damaged(file, cause) => {
            leave(steps, t);
            JobReply::Damaged(file, cause, 0)
        }
        Reply::Memory => {
            leave(steps, t);
            JobReply::Memory
        }
        _ => unreachable!(),
    }
}

// Appends the block of the writes that lie in the target with this number.
#[tactic(auto, using(table_jobs::proofs::Seen::goes_on))]
fn append<T: Steps, K: TableCodec>(
    alloc: Global,
    steps: &mut T,
    codec: &K,
    t: InstantTime,
    targets: &[Target],
    number: usize,
    own: Writes,
) -> Result<(), JobReply>
    requires number { number < length targets.now }
    requires so_far { IsAt (Writes t targets.now number) (entries_of (T.mine steps.old)) }
    requires may { (s : Target) → slice_get targets.now number ≡ Some s → MayWrite (K.own_row codec.now) T.holds (T.job steps.old)
        (record { reading = K.block_rows codec.now; table = K.table_name codec.now; schema = K.schema codec.now }) t s own }
    ensures job { T.job steps.new ≡ T.job steps.old }
    ensures seen { GoesOn (T.seen steps.old) (T.seen steps.new) }
    ensures later { T.later steps.old steps.new }
    ensures wrote { (batch : List Write) → ((s : Target) → slice_get targets.now number ≡ Some s → own ≡ batch_in t s.group batch) → WritesOn
        (record { reading = K.block_rows codec.now; table = K.table_name codec.now; schema = K.schema codec.now }) batch (entries_of (T.mine steps.old)) (entries_of (T.mine steps.new)) }
    ensures answer { MatchResult result (λ _. IsAt (Writes t targets.now (number + 1)) (entries_of (T.mine steps.new)))
        (λ reply. IsWriterReply (entries_of (T.mine steps.new)) reply) }
{
    let (Ok(block), Ok(target)) = (
        block_of(alloc, codec, t, &targets[number].group, own),
        u32::try_from(number),
    ) else {
        leave(steps, t);
        return Err(JobReply::Memory);
    };
    match steps.apply(Step::Append {
        t,
        target,
        writes: block.writes,
        bytes: block.bytes,
    }) {
        Reply::Placed(_, _) => Ok(()),
        Reply::Fault => {
            leave(steps, t);
            Err(JobReply::Fault)
        }
        Reply::Memory => {
            leave(steps, t);
            Err(JobReply::Memory)
        }
        _ => unreachable!(),
    }
}

// Appends the block of each target, of which these are the writes.
#[tactic(auto, using(table_jobs::proofs::Seen::goes_on, table_jobs::proofs::Seen::stays))]
fn append_all<T: Steps, K: TableCodec, G: Gate>(
    alloc: Global,
    steps: &mut T,
    codec: &K,
    t: InstantTime,
    targets: &[Target],
    parts: Vec<Writes>,
    lane: u32,
    gate: &G,
) -> Result<(), JobReply>
    requires so_far { IsAt (Writes t targets.now 0) (entries_of (T.mine steps.old)) }
    requires as_many { length parts.items ≡ length targets.now }
    requires may { MayWriteEach (K.own_row codec.now) T.holds (T.job steps.old)
        (record { reading = K.block_rows codec.now; table = K.table_name codec.now; schema = K.schema codec.now }) t targets.now parts.items }
    ensures job { T.job steps.new ≡ T.job steps.old }
    ensures seen { GoesOn (T.seen steps.old) (T.seen steps.new) }
    ensures later { T.later steps.old steps.new }
    ensures wrote { (batch : List Write) → parts.items ≡ writes_of_each targets.now (writes_from t 0 batch) → WritesOn
        (record { reading = K.block_rows codec.now; table = K.table_name codec.now; schema = K.schema codec.now }) batch (entries_of (T.mine steps.old)) (entries_of (T.mine steps.new)) }
    ensures answer { MatchResult result (λ _. IsAt (Writes t targets.now (length targets.now)) (entries_of (T.mine steps.new)))
        (λ reply. IsWriterReply (entries_of (T.mine steps.new)) reply) }
{
    let mut number: usize = 0;
    for own in parts {
        if let Err(reply) = append(alloc, steps, codec, t, targets, number, own) {
            return Err(reply);
        }
        gate.at(lane, Place::AfterAppend);
        number += 1;
    }
    Ok(())
}

// Makes the writes the instant's, shares them out and appends the block of each target.
#[tactic(auto, using(table_jobs::proofs::Seen::goes_on))]
fn write_parts<T: Steps, K: TableCodec, G: Gate>(
    alloc: Global,
    steps: &mut T,
    codec: &K,
    t: InstantTime,
    targets: &[Target],
    batch: Writes,
    lane: u32,
    gate: &G,
) -> Result<(), JobReply>
    requires so_far { IsAt (Writes t targets.now 0) (entries_of (T.mine steps.old)) }
    requires ready { CanBeWritten (K.own_row codec.now) batch }
    requires holds { HoldsEach T.holds (T.job steps.old)
        (record { reading = K.block_rows codec.now; table = K.table_name codec.now; schema = K.schema codec.now }) batch }
    ensures job { T.job steps.new ≡ T.job steps.old }
    ensures seen { GoesOn (T.seen steps.old) (T.seen steps.new) }
    ensures later { T.later steps.old steps.new }
    ensures wrote { WritesOn (record { reading = K.block_rows codec.now; table = K.table_name codec.now; schema = K.schema codec.now })
        batch (entries_of (T.mine steps.old)) (entries_of (T.mine steps.new)) }
    ensures answer { MatchResult result (λ _. IsAt (Writes t targets.now (length targets.now)) (entries_of (T.mine steps.new)))
        (λ reply. IsWriterReply (entries_of (T.mine steps.new)) reply) }
{
    let Ok(parts) = parts_at(alloc, batch, t, targets) else {
        leave(steps, t);
        return Err(JobReply::Memory);
    };
    append_all(alloc, steps, codec, t, targets, parts, lane, gate)
}

// Writes a batch as one deltacommit.
#[tactic(auto, using(table_jobs::proofs::Seen::goes_on, table_jobs::proofs::Seen::stays))]
fn write_all<T: Steps, K: TableCodec, G: Gate>(
    alloc: Global,
    steps: &mut T,
    codec: &K,
    batch: Writes,
    lane: u32,
    gate: &G,
) -> JobReply
    requires new { T.mine steps.old ≡ [] }
    requires ready { CanBeWritten (K.own_row codec.now) batch }
    requires asks { (slots : List PartitionSlots) → AreSlotsOf batch slots → T.asks (T.job steps.old) slots }
    requires holds { HoldsEach T.holds (T.job steps.old)
        (record { reading = K.block_rows codec.now; table = K.table_name codec.now; schema = K.schema codec.now }) batch }
    ensures job { T.job steps.new ≡ T.job steps.old }
    ensures seen { GoesOn (T.seen steps.old) (T.seen steps.new) }
    ensures later { T.later steps.old steps.new }
    ensures wrote { WritesBatch (record { reading = K.block_rows codec.now; table = K.table_name codec.now; schema = K.schema codec.now })
        batch (entries_of (T.mine steps.new)) }
    ensures answer { IsWriterReply (entries_of (T.mine steps.new)) result }
{
    let Ok(slots) = slots_of(alloc, batch.as_slice()) else {
        return JobReply::Memory;
    };
    let t = match begin(steps) {
        Ok(t) => t,
        Err(reply) => return reply,
    };
    gate.at(lane, Place::AfterBegin);
    let targets = match enter(steps, t, slots) {
        Ok(targets) => targets,
        Err(reply) => return reply,
    };
    gate.at(lane, Place::AfterEnter);
    let targets = targets.as_slice();
    if let Err(reply) = write_parts(alloc, steps, codec, t, targets, batch, lane, gate) {
        return reply;
    }
    gate.at(lane, Place::BeforeFinish);
    finish(steps, t, targets)
}

/// Writes the rows of a batch, or deletes its keys, as one deltacommit: it draws an instant, asks for the file groups of
/// their slots, appends to each a block of the writes that lie in it, and completes the instant. `BadRow` comes exactly
/// where a row or key is refused, with the place of the first, from 0: a row that doesn't fit the schema or of which the
/// codec makes none, or a key that is empty, longer than 1,000 bytes or in no partition; then nothing is done. Where a
/// step fails, or memory is wanting, it leaves the instant pending. The other answers are `Committed`, `TimeOver`,
/// `Fault`, `Damaged` and `Memory`.
pub fn write_batch<T: Steps, K: TableCodec, G: Gate>(
    alloc: Global,
    steps: &mut T,
    codec: &K,
    batch: Batch,
    lane: u32,
    gate: &G,
) -> JobReply
    // The job has made no entry yet.
    requires new { T.mine steps.old ≡ [] }
    // The codec is that of the table.
    requires of_the_table { K.is_of codec.now (T.props steps.old) }
    requires fits { BatchFits (K.fits codec.now) batch }
    // The table takes the batch as the job's: the slots that are asked for, and the blocks that may be written of it.
    requires asks { IfOk (batch_writes (record { row = K.row_made codec.now; is_ordered = K.is_ordered codec.now }) batch)
        (λ writes. (slots : List PartitionSlots) → AreSlotsOf writes slots → T.asks (T.job steps.old) slots) }
    requires holds { IfOk (batch_writes (record { row = K.row_made codec.now; is_ordered = K.is_ordered codec.now }) batch)
        (HoldsEach T.holds (T.job steps.old)
        (record { reading = K.block_rows codec.now; table = K.table_name codec.now; schema = K.schema codec.now })) }
    ensures job { T.job steps.new ≡ T.job steps.old }
    ensures seen { GoesOn (T.seen steps.old) (T.seen steps.new) }
    ensures later { T.later steps.old steps.new }
    // A batch of which a row or key is refused is answered by the first of these. Else each step is the next one of a
    // writer of its writes, and the answer is the one that the job's own entries tell, which are its automaton to an end.
    ensures answer { AnswersBatch (record { reading = K.block_rows codec.now; table = K.table_name codec.now; schema = K.schema codec.now })
        (batch_writes (record { row = K.row_made codec.now; is_ordered = K.is_ordered codec.now }) batch)
        (entries_of (T.mine steps.new)) result }
{
    match writes_of(alloc, codec, batch) {
        Ok(writes) => write_all(alloc, steps, codec, writes, lane, gate),
        Err(reply) => reply,
    }
}
