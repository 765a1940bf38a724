// A control that is led through steps, each decided, told, reserved and taken.
ghost use Rattle.std.specs.Prelude.{IfOk, OnOk, IfSome};
ghost use Rattle.core_tests.specs.StepKinds.{MayFail, ReadsNothing, AreSlots};
ghost use Rattle.core_tests.specs.Past.{HasPast, HasInstant, HasPin, HasView, HasViewIfAny, IsFirstLength, Leads, Joins, Keeps, Leaves, IsDrawn, IsWriting, IsPlaced, IsOwned};
ghost use Rattle.key_index.specs.Tiling.{IsBuckets};
ghost use Rattle.table_core.specs.ControlTables.{IsAsked};

use crate::telling::{NOW, tell};
use avro_schema::Schema;
use hudi_base::{Bytes, InstantTime, Name, Sequence};
use std::alloc::{AllocError, Global};
use table_core::Control;
use table_forms::is_partition_path;
use table_history::{Entry, Job, PartitionSlots, Reader, Reply, Step, View};
use table_props::Props;

pub(crate) fn fresh_with(alloc: Global, buckets: u16) -> Result<Control, AllocError>
    requires { IsBuckets buckets }
    ensures { IfOk result HasPast }
{
    // No step looks at the schema.
    let props = Props {
        name: Name::from_text(alloc, "t")?,
        schema: Schema::Null,
        key: 0,
        partition: 0,
        ordering: None,
        buckets,
    };
    Ok(Control::fresh(alloc, props))
}

pub(crate) fn fresh(alloc: Global) -> Result<Control, AllocError>
    ensures { IfOk result HasPast }
{
    fresh_with(alloc, 1)
}

// A step whose operation succeeds.
fn succeed(
    alloc: Global,
    control: &mut Control,
    job: Job,
    step: Step,
    out: &mut String,
) -> Result<Reply, AllocError>
    requires asked { IsAsked control.old job step }
    requires kind { ReadsNothing step }
    ensures { IfOk result (λ reply. Leads control.old control.new job step reply) }
{
    let decision = control.decide(alloc, job, &step, NOW)?;
    tell(&decision, out)?;
    control.reserve(alloc, &step, &decision)?;
    let entry = Entry {
        job,
        step,
        reply: decision.reply,
    };
    control.take(&entry);
    Ok(entry.reply)
}

// A step whose operation fails.
fn fail(
    alloc: Global,
    control: &mut Control,
    job: Job,
    step: Step,
    out: &mut String,
) -> Result<(), AllocError>
    requires asked { IsAsked control.old job step }
    requires kind { MayFail step }
    ensures { IfOk result (λ _. Leads control.old control.new job step Reply.Fault) }
{
    let decision = control.decide(alloc, job, &step, NOW)?;
    tell(&decision, out)?;
    control.reserve(alloc, &step, &decision)?;
    let entry = Entry {
        job,
        step,
        reply: Reply::Fault,
    };
    control.take(&entry);
    Ok(())
}

#[tactic(auto, using(crate::proofs::Pairs::joined))]
pub(crate) fn begin(
    alloc: Global,
    control: &mut Control,
    job: Job,
    out: &mut String,
) -> Result<InstantTime, AllocError>
    requires { HasPast control.old }
    ensures own { IfOk result (λ t. HasInstant IsDrawn control.new job t) }
    ensures beside { IfOk result (λ t. Joins control.old control.new job t) }
{
    match succeed(alloc, control, job, Step::Begin {}, out)? {
        Reply::Began(t) => Ok(t),
        _ => Err(AllocError),
    }
}

/// A Begin that fails.
pub(crate) fn begin_in_vain(
    alloc: Global,
    control: &mut Control,
    job: Job,
    out: &mut String,
) -> Result<(), AllocError>
    requires { HasPast control.old }
    ensures { IfOk result (λ _. HasPast control.new) }
{
    fail(alloc, control, job, Step::Begin {}, out)
}

// The slots of partition x that are asked for.
fn one_slot(alloc: Global) -> Result<Sequence<PartitionSlots>, AllocError>
    ensures { IfOk result AreSlots }
{
    let partition = Name::from_text(alloc, "x")?;
    if !is_partition_path(partition.as_slice()) {
        return Err(AllocError);
    }
    let slots = Sequence::from_vec(vec![in alloc; 7u16]?);
    let mut asked = Sequence::new(alloc);
    asked.push(PartitionSlots { partition, slots })?;
    Ok(asked)
}

pub(crate) fn enter(
    alloc: Global,
    control: &mut Control,
    job: Job,
    t: InstantTime,
    out: &mut String,
) -> Result<(), AllocError>
    requires { HasInstant IsDrawn control.old job t }
    ensures own { IfOk result (λ _. HasInstant IsWriting control.new job t) }
    ensures beside { OnOk result (Keeps IsDrawn IsWriting control.old control.new job t) }
{
    let slots = one_slot(alloc)?;
    match succeed(alloc, control, job, Step::Enter { t, slots }, out)? {
        Reply::Entered(targets) => {
            if targets.len() == 1 {
                Ok(())
            } else {
                Err(AllocError)
            }
        }
        _ => Err(AllocError),
    }
}

pub(crate) fn append(
    alloc: Global,
    control: &mut Control,
    job: Job,
    t: InstantTime,
    length: usize,
    out: &mut String,
) -> Result<(), AllocError>
    requires { HasInstant IsWriting control.old job t }
    ensures own { IfOk result (λ _. HasInstant IsPlaced control.new job t) }
    ensures beside { OnOk result (Keeps IsWriting IsPlaced control.old control.new job t) }
{
    let bytes = Bytes::from_vec(vec![in alloc; 9u8; length]?);
    let step = Step::Append {
        t,
        target: 0,
        writes: 1,
        bytes,
    };
    match succeed(alloc, control, job, step, out)? {
        Reply::Placed(_, _) => Ok(()),
        _ => Err(AllocError),
    }
}

pub(crate) fn append_in_vain(
    alloc: Global,
    control: &mut Control,
    job: Job,
    t: InstantTime,
    length: usize,
    out: &mut String,
) -> Result<(), AllocError>
    requires { HasInstant IsWriting control.old job t }
    ensures own { IfOk result (λ _. HasInstant IsWriting control.new job t) }
    ensures beside { OnOk result (Keeps IsWriting IsWriting control.old control.new job t) }
{
    let bytes = Bytes::from_vec(vec![in alloc; 9u8; length]?);
    let step = Step::Append {
        t,
        target: 0,
        writes: 1,
        bytes,
    };
    fail(alloc, control, job, step, out)
}

pub(crate) fn finish(
    alloc: Global,
    control: &mut Control,
    job: Job,
    t: InstantTime,
    out: &mut String,
) -> Result<(), AllocError>
    requires { HasInstant IsPlaced control.old job t }
    ensures own { IfOk result (λ _. HasPast control.new) }
    ensures beside { OnOk result (Leaves IsPlaced control.old control.new job t) }
{
    let step = Step::Finish {
        t,
        checkpoint: None,
    };
    let _ = succeed(alloc, control, job, step, out)?;
    Ok(())
}

fn finish_in_vain(
    alloc: Global,
    control: &mut Control,
    job: Job,
    t: InstantTime,
    out: &mut String,
) -> Result<(), AllocError>
    requires { HasInstant IsPlaced control.old job t }
    ensures { OnOk result (HasInstant IsOwned control.new job t) }
{
    let step = Step::Finish {
        t,
        checkpoint: None,
    };
    fail(alloc, control, job, step, out)
}

pub(crate) fn abandon(
    alloc: Global,
    control: &mut Control,
    job: Job,
    t: InstantTime,
    out: &mut String,
) -> Result<(), AllocError>
    requires { HasInstant IsWriting control.old job t }
    ensures own { IfOk result (λ _. HasPast control.new) }
    ensures beside { OnOk result (Leaves IsWriting control.old control.new job t) }
{
    let _ = succeed(alloc, control, job, Step::Abandon { t }, out)?;
    Ok(())
}

// Abandon, however far the instant is.
fn leave(
    alloc: Global,
    control: &mut Control,
    job: Job,
    t: InstantTime,
    out: &mut String,
) -> Result<(), AllocError>
    requires { HasInstant IsOwned control.old job t }
    ensures { OnOk result (HasPast control.new) }
{
    let _ = succeed(alloc, control, job, Step::Abandon { t }, out)?;
    Ok(())
}

fn pin(alloc: Global, control: &mut Control, job: Job, out: &mut String) -> Result<u64, AllocError>
    requires { HasPast control.old }
    ensures { IfOk result (λ pin. HasPin control.new job pin) }
{
    let step = Step::Pin {
        at: None,
        bases_only: false,
    };
    match succeed(alloc, control, job, step, out)? {
        Reply::Pinned(view) => Ok(view.pin),
        _ => Err(AllocError),
    }
}

// A pin at a named instant, if that is completed.
fn pin_at(
    alloc: Global,
    control: &mut Control,
    job: Job,
    t: InstantTime,
    out: &mut String,
) -> Result<Option<View>, AllocError>
    requires { HasPast control.old }
    ensures { IfOk result (λ pinned. HasViewIfAny control.new job pinned) }
{
    let step = Step::Pin {
        at: Some(t),
        bases_only: false,
    };
    match succeed(alloc, control, job, step, out)? {
        Reply::Pinned(view) => Ok(Some(view)),
        Reply::NotCompleted(_) => Ok(None),
        _ => Err(AllocError),
    }
}

// The length of the first file of a view.
fn first_length(view: &View) -> Option<u64>
    ensures { IfSome result (λ length. IsFirstLength view.now length) }
{
    let [group, ..] = view.groups.as_slice() else {
        return None;
    };
    match group.parts.as_slice() {
        [part, ..] => Some(part.length),
        _ => None,
    }
}

// What is read of a file, from a place behind its first bytes on.
const PIECE_AT: u64 = 3;

const PIECE_LEN: u64 = 4;

// A Read of the first file that fails.
fn read_in_vain(
    alloc: Global,
    control: &mut Control,
    job: Job,
    view: &View,
    out: &mut String,
) -> Result<(), AllocError>
    requires { HasView control.old job view.now }
    ensures { IfOk result (λ _. HasView control.new job view.now) }
{
    match first_length(view) {
        Some(length) if length >= PIECE_AT + PIECE_LEN => {
            let step = Step::Read {
                from: Reader::Pin(view.pin),
                file: 0,
                at: PIECE_AT,
                len: PIECE_LEN,
            };
            fail(alloc, control, job, step, out)
        }
        _ => Err(AllocError),
    }
}

fn unpin(
    alloc: Global,
    control: &mut Control,
    job: Job,
    pin: u64,
    out: &mut String,
) -> Result<(), AllocError>
    requires { HasPin control.old job pin }
    ensures { IfOk result (λ _. HasPast control.new) }
{
    let _ = succeed(alloc, control, job, Step::Unpin { pin }, out)?;
    Ok(())
}

/// A writer of one block.
pub(crate) fn write(
    alloc: Global,
    control: &mut Control,
    job: Job,
    length: usize,
    out: &mut String,
) -> Result<(), AllocError>
    requires { HasPast control.old }
    ensures { IfOk result (λ _. HasPast control.new) }
{
    let t = begin(alloc, control, job, out)?;
    enter(alloc, control, job, t, out)?;
    append(alloc, control, job, t, length, out)?;
    finish(alloc, control, job, t, out)
}

/// A writer whose append fails.
pub(crate) fn write_in_vain(
    alloc: Global,
    control: &mut Control,
    job: Job,
    length: usize,
    out: &mut String,
) -> Result<(), AllocError>
    requires { HasPast control.old }
    ensures { IfOk result (λ _. HasPast control.new) }
{
    let t = begin(alloc, control, job, out)?;
    enter(alloc, control, job, t, out)?;
    append_in_vain(alloc, control, job, t, length, out)?;
    abandon(alloc, control, job, t, out)
}

/// A writer whose Finish fails.
pub(crate) fn write_unfinished(
    alloc: Global,
    control: &mut Control,
    job: Job,
    length: usize,
    out: &mut String,
) -> Result<(), AllocError>
    requires { HasPast control.old }
    ensures { IfOk result (λ _. HasPast control.new) }
{
    let t = begin(alloc, control, job, out)?;
    enter(alloc, control, job, t, out)?;
    append(alloc, control, job, t, length, out)?;
    finish_in_vain(alloc, control, job, t, out)?;
    leave(alloc, control, job, t, out)
}

/// A query that reads nothing.
pub(crate) fn look(
    alloc: Global,
    control: &mut Control,
    job: Job,
    out: &mut String,
) -> Result<(), AllocError>
    requires { HasPast control.old }
    ensures { IfOk result (λ _. HasPast control.new) }
{
    let number = pin(alloc, control, job, out)?;
    unpin(alloc, control, job, number, out)
}

/// A query at a named instant, whose Read fails.
pub(crate) fn look_at(
    alloc: Global,
    control: &mut Control,
    job: Job,
    t: InstantTime,
    out: &mut String,
) -> Result<(), AllocError>
    requires { HasPast control.old }
    ensures { IfOk result (λ _. HasPast control.new) }
{
    let Some(view) = pin_at(alloc, control, job, t, out)? else {
        return Ok(());
    };
    read_in_vain(alloc, control, job, &view, out)?;
    unpin(alloc, control, job, view.pin, out)
}
