// The steps of jobs on a table in memory.
ghost use Rattle.std.specs.Prelude.{◌≡◌, [], IfOk, OnOk};
ghost use Rattle.board_tests.specs.Lanes.{AreSlots, HasDrawn, HasFailed, IsFresh, IsWriting, KeepsFresh};

use avro_schema::Schema;
use hudi_base::{Bytes, InstantTime, Name, Sequence};
use log_block::{Block, write_block};
use std::alloc::{AllocError, Global};
use store_mem::{MemClock, MemStore};
use table_board::{Board, Solo};
use table_core::Control;
use table_forms::is_partition_path;
use table_history::{Job, PartitionSlots, Reply, Step, Steps, Work};
use table_props::Props;

/// Jobs that may write anything.
#[derive(Drop)]
pub(crate) struct AnyWork {}

impl Work for AnyWork {
    ghost asks = { λ job slots. Unit {0} };

    ghost holds = { λ job t target writes bytes. Unit {0} };
}

pub(crate) type MemBoard = Board<MemStore, MemClock, AnyWork>;

/// A table without instants, over a store whose changing calls of these numbers fail.
pub(crate) fn fresh(
    alloc: Global,
    failing: Sequence<u64>,
    prefix: u64,
) -> Result<MemBoard, AllocError>
    ensures { IfOk result (λ board. board.entries ≡ []) }
{
    // No step looks at the schema.
    let props = Props {
        name: Name::from_text(alloc, "t")?,
        schema: Schema::Null,
        key: 0,
        partition: 0,
        ordering: None,
        buckets: 1,
    };
    let control = Control::fresh(alloc, props);
    let store = MemStore::with_failures(alloc, failing, prefix);
    let clock = MemClock::at(1_704_067_200_000);
    Ok(Board::new(alloc, store, clock, control))
}

#[tactic(auto, using(crate::proofs::Phases::at_next, crate::proofs::Phases::others_stay))]
fn begin(board: &mut MemBoard, job: Job) -> Result<InstantTime, AllocError>
    requires { IsFresh board.old.entries job }
    ensures drawn { IfOk result (λ t. HasDrawn board.new.entries job t) }
    ensures others { KeepsFresh job board.old.entries board.new.entries }
{
    match board.step(job, Step::Begin {}) {
        Reply::Began(t) => Ok(t),
        _ => Err(AllocError),
    }
}

/// A Begin of a job that is alone.
pub(crate) fn begin_alone(
    solo: &mut Solo<MemStore, MemClock, AnyWork>,
) -> Result<InstantTime, AllocError>
    requires { solo.old.board.entries ≡ [] }
{
    match solo.apply(Step::Begin {}) {
        Reply::Began(t) => Ok(t),
        _ => Err(AllocError),
    }
}

// The slots of partition x that are asked for.
fn one_slot(alloc: Global) -> Result<Sequence<PartitionSlots>, AllocError>
    ensures { IfOk result AreSlots }
{
    let partition = Name::from_text(alloc, "x")?;
    if !is_partition_path(partition.as_slice()) {
        return Err(AllocError);
    }
    let slots = Sequence::from_vec(vec![in alloc; 7u16]?);
    let mut asked = Sequence::new(alloc);
    asked.push(PartitionSlots { partition, slots })?;
    Ok(asked)
}

#[tactic(auto, using(crate::proofs::Phases::at_next, crate::proofs::Phases::others_stay))]
fn enter(
    board: &mut MemBoard,
    job: Job,
    t: InstantTime,
    slots: Sequence<PartitionSlots>,
) -> Result<(), AllocError>
    requires slots { AreSlots slots }
    requires drawn { HasDrawn board.old.entries job t }
    ensures writing { OnOk result (IsWriting board.new.entries job t 0) }
    ensures others { KeepsFresh job board.old.entries board.new.entries }
{
    match board.step(job, Step::Enter { t, slots }) {
        Reply::Entered(targets) => {
            if targets.len() == 1 {
                Ok(())
            } else {
                Err(AllocError)
            }
        }
        _ => Err(AllocError),
    }
}

// A block of an instant.
pub(crate) fn block(alloc: Global, t: InstantTime) -> Result<Bytes, AllocError> {
    let block = Block::Data {
        instant: t,
        schema: Bytes::from_slice(alloc, b"r1")?,
        content: Bytes::from_slice(alloc, b"some rows of this instant")?,
    };
    match write_block(alloc, &block) {
        Ok(bytes) => Ok(bytes),
        Err(_) => Err(AllocError),
    }
}

#[tactic(auto, using(crate::proofs::Phases::at_next, crate::proofs::Phases::others_stay))]
fn append(board: &mut MemBoard, job: Job, t: InstantTime, bytes: Bytes) -> Result<(), AllocError>
    requires { IsWriting board.old.entries job t 0 }
    ensures writing { OnOk result (IsWriting board.new.entries job t 1) }
    ensures others { KeepsFresh job board.old.entries board.new.entries }
{
    let step = Step::Append {
        t,
        target: 0,
        writes: 1,
        bytes,
    };
    match board.step(job, step) {
        Reply::Placed(_, _) => Ok(()),
        _ => Err(AllocError),
    }
}

// An Append that fails.
#[tactic(auto, using(crate::proofs::Phases::at_next, crate::proofs::Phases::others_stay))]
fn fail_append(
    board: &mut MemBoard,
    job: Job,
    t: InstantTime,
    bytes: Bytes,
) -> Result<(), AllocError>
    requires { IsWriting board.old.entries job t 0 }
    ensures failed { OnOk result (HasFailed board.new.entries job t) }
    ensures others { KeepsFresh job board.old.entries board.new.entries }
{
    let step = Step::Append {
        t,
        target: 0,
        writes: 1,
        bytes,
    };
    match board.step(job, step) {
        Reply::Fault => Ok(()),
        _ => Err(AllocError),
    }
}

#[tactic(auto, using(crate::proofs::Phases::others_stay))]
fn finish(board: &mut MemBoard, job: Job, t: InstantTime) -> Result<(), AllocError>
    requires { IsWriting board.old.entries job t 1 }
    ensures others { KeepsFresh job board.old.entries board.new.entries }
{
    let step = Step::Finish {
        t,
        checkpoint: None,
    };
    match board.step(job, step) {
        Reply::Completed(_) => Ok(()),
        _ => Err(AllocError),
    }
}

#[tactic(auto, using(crate::proofs::Phases::others_stay))]
fn abandon(board: &mut MemBoard, job: Job, t: InstantTime)
    requires { HasFailed board.old.entries job t }
    ensures others { KeepsFresh job board.old.entries board.new.entries }
{
    let _done = board.step(job, Step::Abandon { t });
}

/// An upsert of one block.
pub(crate) fn upsert(alloc: Global, board: &mut MemBoard, job: Job) -> Result<(), AllocError>
    requires { IsFresh board.old.entries job }
    ensures others { OnOk result (KeepsFresh job board.old.entries board.new.entries) }
{
    let t = begin(board, job)?;
    enter(board, job, t, one_slot(alloc)?)?;
    append(board, job, t, block(alloc, t)?)?;
    finish(board, job, t)
}

/// An upsert whose append fails.
pub(crate) fn fail_upsert(alloc: Global, board: &mut MemBoard, job: Job) -> Result<(), AllocError>
    requires { IsFresh board.old.entries job }
    ensures others { OnOk result (KeepsFresh job board.old.entries board.new.entries) }
{
    let t = begin(board, job)?;
    enter(board, job, t, one_slot(alloc)?)?;
    fail_append(board, job, t, block(alloc, t)?)?;
    abandon(board, job, t);
    Ok(())
}
