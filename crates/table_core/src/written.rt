// How many writes were placed for the targets of instants.
ghost use Rattle.std.specs.Prelude.{◌≡◌, ◌<◌, ◌+◌, ◌^◌, IsSome, OnOk, IfOk, if◌then◌else◌};
ghost use Rattle.table_core.specs.ControlTables.{HasWritesRoom, writes_at, writes_in, targets_in};
ghost use Rattle.table_core.specs.Keys.{number_cmp, is_number};
ghost use Rattle.table_core.specs.Rooms.{found};
ghost use Rattle.table_core.specs.declared.written.TargetNumber.{TargetNumber};
ghost use Rattle.table_history.specs.Metadata.{written};

use crate::Control;
use crate::rooms::Rooms;
use hudi_base::{InstantTime, Sequence, Target};
use std::alloc::{AllocError, Global};

/// A target of an instant: the instant's time in milliseconds, and the target's number from 0.
#[derive(Clone, Copy, PartialEq, Eq, PartialOrd, Ord)]
pub(crate) struct TargetNumber {
    pub(crate) t: u64,
    pub(crate) number: u64,
}

impl TargetNumber {
    pub(crate) fn new(t: InstantTime, number: u64) -> TargetNumber
        ensures { result ≡ record { t = t; number = number } }
    {
        TargetNumber { t: t.ms(), number }
    }
}

// The number of writes at a target, 0 where none were placed.
fn writes_at(writes: &Rooms<TargetNumber, u32>, at: TargetNumber) -> u32
    ensures { result ≡ writes_at writes.now at }
{
    match writes.get(&at) {
        Some(placed) => *placed,
        None => 0,
    }
}

// Room for more writes at a target. The only error is want of memory, which is also where there would be 2^32.
pub(crate) fn reserve_writes(
    writes: &mut Rooms<TargetNumber, u32>,
    at: TargetNumber,
    more: u32,
) -> Result<(), AllocError>
    ensures room { OnOk result (HasWritesRoom writes.new at more) }
    ensures same { (q : TargetNumber) → writes_at writes.new q ≡ writes_at writes.old q }
{
    writes.reserve(at, 0)?;
    if writes_at(writes, at) > u32::MAX - more {
        return Err(AllocError);
    }
    Ok(())
}

// More writes were placed for a target. It takes no memory.
pub(crate) fn add_writes(writes: &mut Rooms<TargetNumber, u32>, at: TargetNumber, more: u32)
    requires { HasWritesRoom writes.old at more }
    ensures { (q : TargetNumber) → writes_at writes.new q
        ≡ (if is_number at q then writes_at writes.old at + more else writes_at writes.old q) }
{
    let mut sum = writes_at(writes, at) + more;
    writes.swap(&at, &mut sum);
}

impl Control {
    // The targets of an instant, each with the number of writes that were placed for it.
    pub(crate) fn written(
        &self,
        alloc: Global,
        t: InstantTime,
    ) -> Result<Sequence<(Target, u32)>, AllocError>
        ensures { IfOk result (λ groups. groups ≡ written (writes_in self.now t) 0 (targets_in self.now t)) }
    {
        match self.targets.get(&t.ms()) {
            Some(targets) => self.written_for(alloc, t, targets.as_slice()),
            None => Ok(Sequence::new(alloc)),
        }
    }

    fn written_for(
        &self,
        alloc: Global,
        t: InstantTime,
        targets: &[Target],
    ) -> Result<Sequence<(Target, u32)>, AllocError>
        ensures { IfOk result (λ groups. groups ≡ written (writes_in self.now t) 0 targets.now) }
    {
        let mut groups = Sequence::new(alloc);
        for (i, target) in targets.iter().enumerate() {
            let placed = writes_at(&self.writes, TargetNumber::new(t, i as u64));
            groups.push((target.copy(alloc)?, placed))?;
        }
        Ok(groups)
    }
}
