// What the control decides of a step, a function for each kind of step.
ghost use Rattle.std.specs.Prelude.{◌≡◌, ◌<◌, ℤ, Some, None, IsSome, IfOk, IsOk, MatchOption, slice_get, length};
ghost use Rattle.table_core.specs.ControlTables.{IsControl, IsAsked, IsLeaving, targets_at, targets_in, slice_in, part_in};
ghost use Rattle.table_core.specs.Placements.{placement};
ghost use Rattle.table_history.specs.Histories.{History};
ghost use Rattle.table_history.specs.Operations.{Decides};
ghost use Rattle.table_history.specs.Tables.{Table};

use crate::Control;
use crate::lists::copy_targets;
use crate::names::{creation, log_name};
use crate::rooms::Rooms;
use crate::slice_logs::SliceLogs;
use crate::tiles::targets_of_slots;
use crate::times::is_among;
use commit_meta::{DeltaMeta, Meta};
use file_names::{State, Token};
use hudi_base::{Bytes, InstantTime, Sequence, Target};
use std::alloc::{AllocError, Global};
use table_history::{Decision, Job, Op, Part, PartitionSlots, Reader, Reply, Step};

// A decision that needs no operation.
fn without_operation(reply: Reply) -> Decision
    ensures { result ≡ record { reply = reply; op = Op.Nothing } }
{
    Decision {
        reply,
        op: Op::Nothing,
    }
}

// The target of an instant that has this number.
pub(crate) fn target_of(
    targets: &Rooms<u64, Sequence<Target>>,
    t: InstantTime,
    target: u32,
) -> Option<&Target>
    ensures { MatchOption result (slice_get (targets_at targets.now t) target ≡ None)
        (λ s. slice_get (targets_at targets.now t) target ≡ Some s.now) }
{
    match targets.get(&t.ms()) {
        Some(targets) => targets.as_slice().get(target as usize),
        None => None,
    }
}

impl Control {
    /// The machine's reply to a job's step while the clock shows `now`, in case the step's operation succeeds, and
    /// that operation. The piece of a Read is empty: its bytes come with the operation. The only error is want of
    /// memory, which is also where no number is left for a pin; a step by which a job leaves its instant or its pin
    /// wants none.
    pub fn decide(
        &self,
        alloc: Global,
        job: Job,
        step: &Step,
        now: i64,
    ) -> Result<Decision, AllocError>
        requires { IsAsked self.now job step.now }
        ensures decision { IfOk result (λ decision. (A : Table) (H : History) → IsControl A H self.now
            → Decides A H step.now now decision) }
        ensures leaving { IsLeaving step.now → IsOk result }
    {
        match step {
            Step::Begin {} => self.decide_begin(alloc, now),
            Step::Enter { t, slots } => self.decide_enter(alloc, *t, slots.as_slice()),
            Step::Append {
                t,
                target,
                writes,
                bytes,
            } => self.decide_append(alloc, *t, *target, *writes, bytes),
            Step::Finish { t, checkpoint } => self.decide_finish(alloc, *t, *checkpoint),
            Step::Pin { at, bases_only } => self.decide_pin(alloc, *at, *bases_only),
            Step::Unpin { .. } => Ok(without_operation(Reply::Done)),
            Step::Read {
                from,
                file,
                at,
                len,
            } => self.decide_read(alloc, *from, *file, *at, *len),
            Step::Abandon { .. } => Ok(without_operation(Reply::Done)),
        }
    }

    fn decide_begin(&self, alloc: Global, now: i64) -> Result<Decision, AllocError>
        ensures { IfOk result (λ decision. (A : Table) (H : History) → IsControl A H self.now
            → Decides A H Step.Begin now decision) }
    {
        match InstantTime::next_after(self.last, now) {
            Ok(t) => Ok(Decision {
                op: creation(alloc, &self.props.name, t, State::Requested, &Meta::Empty)?,
                reply: Reply::Began(t),
            }),
            Err(_) => Ok(without_operation(Reply::TimeOver)),
        }
    }

    fn decide_enter(
        &self,
        alloc: Global,
        t: InstantTime,
        slots: &[PartitionSlots],
    ) -> Result<Decision, AllocError>
        ensures { IfOk result (λ decision. (A : Table) (H : History) (now : ℤ) → IsControl A H self.now
            → Decides A H (Step.Enter t slots.now) now decision) }
    {
        let targets = targets_of_slots(alloc, &self.buckets, slots)?;
        let claims = Meta::Claims(copy_targets(alloc, targets.as_slice())?);
        Ok(Decision {
            op: creation(alloc, &self.props.name, t, State::Inflight, &claims)?,
            reply: Reply::Entered(targets),
        })
    }

    // A block goes to a slice with these logs.
    fn placement(
        &self,
        alloc: Global,
        slice: &Target,
        logs: &SliceLogs,
        bytes: &Bytes,
    ) -> Result<Decision, AllocError>
        ensures { IfOk result (λ decision. decision ≡ placement self.now slice.now logs.now bytes.now) }
    {
        let token = Token {
            session: self.session,
            attempt: logs.attempt(self.attempts),
        };
        let name = log_name(alloc, &self.props.name, slice, logs.version(), token)?;
        Ok(Decision {
            reply: Reply::Placed(logs.version(), logs.length_in_use()),
            op: Op::Append(name, bytes.copy(alloc)?),
        })
    }

    fn append_to(
        &self,
        alloc: Global,
        slice: &Target,
        bytes: &Bytes,
    ) -> Result<Decision, AllocError>
        ensures { IfOk result (λ decision.
            decision ≡ placement self.now slice.now (slice_in self.now slice.now) bytes.now) }
    {
        match self.slices.get(slice) {
            Some(logs) => self.placement(alloc, slice, logs, bytes),
            None => self.placement(alloc, slice, &SliceLogs::none(alloc), bytes),
        }
    }

    #[tactic(auto, using(crate::proofs::DecisionLemmas::append_decides))]
    fn decide_append(
        &self,
        alloc: Global,
        t: InstantTime,
        target: u32,
        writes: u32,
        bytes: &Bytes,
    ) -> Result<Decision, AllocError>
        requires { target < length (targets_in self.now t) }
        ensures { IfOk result (λ decision. (A : Table) (H : History) (now : ℤ) → IsControl A H self.now
            → Decides A H (Step.Append t target writes bytes.now) now decision) }
    {
        match target_of(&self.targets, t, target) {
            Some(slice) => self.append_to(alloc, slice, bytes),
            None => unreachable!(),
        }
    }

    fn decide_finish(
        &self,
        alloc: Global,
        t: InstantTime,
        checkpoint: Option<u64>,
    ) -> Result<Decision, AllocError>
        ensures { IfOk result (λ decision. (A : Table) (H : History) (now : ℤ) → IsControl A H self.now
            → Decides A H (Step.Finish t checkpoint) now decision) }
    {
        let meta = Meta::Delta(DeltaMeta {
            checkpoint,
            groups: self.written(alloc, t)?,
        });
        Ok(Decision {
            reply: Reply::Completed(t),
            op: creation(alloc, &self.props.name, t, State::Completed, &meta)?,
        })
    }

    fn decide_pin(
        &self,
        alloc: Global,
        at: Option<InstantTime>,
        bases_only: bool,
    ) -> Result<Decision, AllocError>
        ensures { IfOk result (λ decision. (A : Table) (H : History) (now : ℤ) → IsControl A H self.now
            → Decides A H (Step.Pin at bases_only) now decision) }
    {
        match at {
            Some(t) => self.decide_pin_at(alloc, t, bases_only),
            None => self.decide_pin_of_latest(alloc, bases_only),
        }
    }

    fn decide_pin_of_latest(&self, alloc: Global, bases_only: bool) -> Result<Decision, AllocError>
        ensures { IfOk result (λ decision. (A : Table) (H : History) (now : ℤ) → IsControl A H self.now
            → Decides A H (Step.Pin None bases_only) now decision) }
    {
        let view = self.view(alloc, None, bases_only)?;
        Ok(without_operation(Reply::Pinned(view)))
    }

    fn decide_pin_at(
        &self,
        alloc: Global,
        t: InstantTime,
        bases_only: bool,
    ) -> Result<Decision, AllocError>
        ensures { IfOk result (λ decision. (A : Table) (H : History) (now : ℤ) → IsControl A H self.now
            → Decides A H (Step.Pin (Some t) bases_only) now decision) }
    {
        if !is_among(&self.completed, t) {
            return Ok(without_operation(Reply::NotCompleted(t)));
        }
        let view = self.view(alloc, Some(t), bases_only)?;
        Ok(without_operation(Reply::Pinned(view)))
    }

    // A file of a reader, by its number.
    fn part(&self, from: Reader, file: u32) -> Option<&Part>
        ensures { MatchOption result (part_in self.now from file ≡ None)
            (λ part. part_in self.now from file ≡ Some part.now) }
    {
        let Reader::Pin(pin) = from;
        match self.pins.get(&pin) {
            Some(parts) => parts.as_slice().get(file as usize),
            None => None,
        }
    }

    fn decide_read(
        &self,
        alloc: Global,
        from: Reader,
        file: u32,
        at: u64,
        len: u64,
    ) -> Result<Decision, AllocError>
        requires { IsSome (part_in self.now from file) }
        ensures { IfOk result (λ decision. (A : Table) (H : History) (now : ℤ) → IsControl A H self.now
            → Decides A H (Step.Read from file at len) now decision) }
    {
        match self.part(from, file) {
            Some(part) => Ok(Decision {
                reply: Reply::Piece(Bytes::from_vec(Vec::new(alloc))),
                op: Op::Read(part.name.copy(alloc)?, at, len),
            }),
            None => unreachable!(),
        }
    }
}
