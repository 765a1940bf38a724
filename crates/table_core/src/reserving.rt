// Room for the entry of a step, a function for each kind of step that wants some.
ghost use Rattle.std.specs.Prelude.{◌≡◌, ◌<◌, ◌^◌, IsSome, IfSome, IsOk, OnOk, length, vec_len, vec_capacity};
ghost use Rattle.table_core.specs.ControlTables.{IsControl, IsLeaving, HasRoomFor, HasEnterRoom, HasAppendRoom, HasPinRoom, slice_at};
ghost use Rattle.table_core.specs.Keys.{target_cmp};
ghost use Rattle.table_core.specs.Rooms.{found};
ghost use Rattle.table_core.specs.SliceStates.{HasBlockRoom, SameLogs};
ghost use Rattle.hudi_base.specs.declared.file_group.Target.{Target};
ghost use Rattle.table_history.specs.Histories.{History};
ghost use Rattle.table_history.specs.Tables.{Table};

use crate::Control;
use crate::deciding::target_of;
use crate::lists::{copy_targets, files_of_view};
use crate::rooms::Rooms;
use crate::slice_logs::SliceLogs;
use crate::written::{TargetNumber, reserve_writes};
use hudi_base::{Bytes, InstantTime, Sequence, Target};
use std::alloc::{AllocError, Global};
use table_history::{Decision, Reply, Step, View};

// A place for the logs of a slice, which is copied where there is none.
fn reserve_place(
    slices: &mut Rooms<Target, SliceLogs>,
    alloc: Global,
    slice: &Target,
) -> Result<(), AllocError>
    ensures place { OnOk result (IsSome (found target_cmp slices.new slice.now)) }
    ensures same { (s : Target) → slice_at slices.new s ≡ slice_at slices.old s }
{
    if slices.get(slice).is_some() {
        return Ok(());
    }
    slices.reserve(slice.copy(alloc)?, SliceLogs::none(alloc))
}

// Room for a block in a slice that has a place.
fn grow_slice(
    slices: &mut Rooms<Target, SliceLogs>,
    alloc: Global,
    slice: &Target,
    block: u64,
) -> Result<(), AllocError>
    requires { IsSome (found target_cmp slices.old slice.now) }
    ensures place { IsSome (found target_cmp slices.new slice.now) }
    ensures room { OnOk result (HasBlockRoom (slice_at slices.new slice.now) block) }
    ensures same { (s : Target) → SameLogs (slice_at slices.old s) (slice_at slices.new s) }
{
    let mut logs = SliceLogs::none(alloc);
    slices.swap(slice, &mut logs);
    let reserved = logs.reserve(block);
    slices.swap(slice, &mut logs);
    reserved
}

// Room for a block in a slice.
fn reserve_slice(
    slices: &mut Rooms<Target, SliceLogs>,
    alloc: Global,
    slice: &Target,
    block: u64,
) -> Result<(), AllocError>
    ensures room { OnOk result (IsSome (found target_cmp slices.new slice.now)
        × HasBlockRoom (slice_at slices.new slice.now) block) }
    ensures same { (s : Target) → SameLogs (slice_at slices.old s) (slice_at slices.new s) }
{
    reserve_place(slices, alloc, slice)?;
    grow_slice(slices, alloc, slice, block)
}

impl Control {
    /// Makes room for a step's entry, whether its operation succeeds or fails, and changes nothing of what the tables
    /// mean. The only error is want of memory, which is also where a count or a length would pass 64 bits, or the writes
    /// of one target 32 bits; a step by which a job leaves its instant or its pin wants none.
    pub fn reserve(
        &mut self,
        alloc: Global,
        step: &Step,
        decision: &Decision,
    ) -> Result<(), AllocError>
        ensures room { OnOk result (HasRoomFor self.new step.now decision.now.reply) }
        ensures same { (A : Table) (H : History) → IsControl A H self.old → IsControl A H self.new }
        ensures leaving { IsLeaving step.now → IsOk result }
    {
        match (step, &decision.reply) {
            (Step::Enter { t, .. }, Reply::Entered(targets)) => self.reserve_enter(
                alloc,
                *t,
                targets.as_slice(),
            ),
            (
                Step::Append {
                    t,
                    target,
                    writes,
                    bytes,
                },
                _,
            ) => self.reserve_append(alloc, *t, *target, *writes, bytes),
            (Step::Finish { checkpoint, .. }, _) => self.reserve_finish(*checkpoint),
            (Step::Pin { .. }, Reply::Pinned(view)) => self.reserve_pin(alloc, view),
            _ => Ok(()),
        }
    }

    // Room for the targets of an instant.
    fn reserve_enter(
        &mut self,
        alloc: Global,
        t: InstantTime,
        targets: &[Target],
    ) -> Result<(), AllocError>
        ensures room { OnOk result (HasEnterRoom self.new t (Reply.Entered targets.now)) }
        ensures same { (A : Table) (H : History) → IsControl A H self.old → IsControl A H self.new }
    {
        self.targets.reserve(t.ms(), Sequence::new(alloc))?;
        self.entering = copy_targets(alloc, targets)?;
        Ok(())
    }

    // Room for a block of so many writes in the slice of a target.
    fn reserve_append(
        &mut self,
        alloc: Global,
        t: InstantTime,
        target: u32,
        writes: u32,
        bytes: &Bytes,
    ) -> Result<(), AllocError>
        ensures room { OnOk result (HasAppendRoom self.new t target writes (length bytes.now)) }
        ensures same { (A : Table) (H : History) → IsControl A H self.old → IsControl A H self.new }
    {
        if self.attempts == u64::MAX {
            return Err(AllocError);
        }
        let at = TargetNumber::new(t, target as u64);
        reserve_writes(&mut self.writes, at, writes)?;
        let block = bytes.as_slice().len() as u64;
        match target_of(&self.targets, t, target) {
            Some(slice) => reserve_slice(&mut self.slices, alloc, slice, block),
            None => Ok(()),
        }
    }

    // Room for an instant that is completed.
    fn reserve_finish(&mut self, checkpoint: Option<u64>) -> Result<(), AllocError>
        ensures room { OnOk result (vec_len self.new.completed < vec_capacity self.new.completed) }
        ensures fits { IfSome checkpoint (λ n. n < 2 ^ 64) }
        ensures same { (A : Table) (H : History) → IsControl A H self.old → IsControl A H self.new }
    {
        self.completed.reserve(1)
    }

    // Room for a pin and its files.
    fn reserve_pin(&mut self, alloc: Global, view: &View) -> Result<(), AllocError>
        ensures room { OnOk result (HasPinRoom self.new (Reply.Pinned view.now)) }
        ensures same { (A : Table) (H : History) → IsControl A H self.old → IsControl A H self.new }
    {
        if self.pins_made == u64::MAX {
            return Err(AllocError);
        }
        let pin = view.pin;
        self.pins.reserve(pin, Sequence::new(alloc))?;
        self.pinning = files_of_view(alloc, view)?;
        Ok(())
    }
}
