// The groups that an Enter takes for slots of several partitions, by the number of buckets.
ghost use Rattle.std.specs.Prelude.{IfOk};
ghost use Rattle.std.specs.List.{All};
ghost use Rattle.core_tests.specs.Past.{HasInstant, IsDrawn};
ghost use Rattle.key_index.specs.Tiling.{IsBuckets};
ghost use Rattle.table_forms.specs.NameForms.{IsPartitionPath};

use crate::driving::{begin, fresh_with};
use crate::telling::NOW;
use hudi_base::{InstantTime, Name, Sequence, Target};
use std::alloc::{AllocError, Global};
use std::fmt::Write;
use std::test::Fail;
use table_core::Control;
use table_forms::is_partition_path;
use table_history::{Decision, Job, PartitionSlots, Reply, Step};

const JOB: Job = Job { lane: 1, line: 1 };

// Slots of one partition.
fn slots_of(alloc: Global, partition: &str, slots: Vec<u16>) -> Result<PartitionSlots, AllocError>
    ensures { IfOk result (λ asked. IsPartitionPath asked.partition) }
{
    let partition = Name::from_text(alloc, partition)?;
    if !is_partition_path(partition.as_slice()) {
        return Err(AllocError);
    }
    Ok(PartitionSlots {
        partition,
        slots: Sequence::from_vec(slots),
    })
}

// Slots of partitions y and x, in no order.
fn wide_slots(alloc: Global) -> Result<Sequence<PartitionSlots>, AllocError>
    ensures { IfOk result (λ slots. All (λ asked. IsPartitionPath asked.partition) slots) }
{
    let last = slots_of(alloc, "y", vec![in alloc; 65_535u16]?)?;
    let some = slots_of(alloc, "x", vec![in alloc; 40_000u16, 7, 8]?)?;
    let again = slots_of(alloc, "x", vec![in alloc; 9u16]?)?;
    let mut asked = Sequence::new(alloc);
    asked.push(last)?;
    asked.push(some)?;
    asked.push(again)?;
    Ok(asked)
}

fn tell_targets(targets: &[Target], out: &mut String) -> Result<(), AllocError> {
    for target in targets {
        let partition = target.group.partition.as_str();
        let (lo, hi) = (target.group.lo, target.group.hi);
        write!(out, " {partition} {lo}-{hi}")?;
    }
    Ok(())
}

/// What is decided of an Enter of these slots.
pub(crate) fn decide_wide(
    alloc: Global,
    control: &Control,
    t: InstantTime,
) -> Result<Decision, AllocError>
    requires { HasInstant IsDrawn control.now JOB t }
{
    let slots = wide_slots(alloc)?;
    control.decide(alloc, JOB, &Step::Enter { t, slots }, NOW)
}

fn enter_wide(
    alloc: Global,
    control: &Control,
    t: InstantTime,
    out: &mut String,
) -> Result<(), AllocError>
    requires { HasInstant IsDrawn control.now JOB t }
{
    let decision = decide_wide(alloc, control, t)?;
    match &decision.reply {
        Reply::Entered(targets) => tell_targets(targets.as_slice(), out),
        _ => Err(AllocError),
    }
}

fn targets_told(alloc: Global, buckets: u16) -> Result<String, AllocError>
    requires { IsBuckets buckets }
{
    let mut control = fresh_with(alloc, buckets)?;
    let mut out = String::new(alloc);
    let t = begin(alloc, &mut control, JOB, &mut out)?;
    out.clear();
    enter_wide(alloc, &control, t, &mut out)?;
    Ok(out)
}

#[test]
fn slots_have_their_groups(rt: HostRuntime) -> Result<(), Fail> {
    let one = targets_told(rt.alloc(), 1)?;
    assert_eq!(rt; one.as_str(), " x 0-65535 y 0-65535");
    let two = targets_told(rt.alloc(), 2)?;
    assert_eq!(rt; two.as_str(), " x 0-32767 x 32768-65535 y 32768-65535");
    let three = targets_told(rt.alloc(), 3)?;
    assert_eq!(rt; three.as_str(), " x 0-21844 x 21845-43689 y 43690-65535");
    let seven = targets_told(rt.alloc(), 7)?;
    assert_eq!(rt; seven.as_str(), " x 0-9361 x 37449-46810 y 56173-65535");
    let most = targets_told(rt.alloc(), 1_024)?;
    assert_eq!(rt; most.as_str(), " x 0-63 x 40000-40063 y 65472-65535");
    Ok(())
}
