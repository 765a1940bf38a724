// The writes of a batch, shared out among its targets.
ghost use Rattle.std.specs.Prelude.{◌≡◌, ◌<◌, ◌^◌, ◌++◌, ◌∷◌, [], length, filter, IfOk, OnOk};
ghost use Rattle.payload_merge.specs.Fold.{writes_from};
ghost use Rattle.upsert_writer.specs.BatchWrites.{is_in_group};
ghost use Rattle.upsert_writer.specs.TargetWrites.{begin_behind, end_before, is_before, lies_before, lies_behind, writes_of_each};

use crate::writes::{all_in_group, copies_in_group, is_in_group, partition_of, slot_in, writes_at};
use hudi_base::{GroupRef, InstantTime, Name, Sequence, Target};
use payload_merge::{Write, Writes};
use std::alloc::{AllocError, Global};
use std::cmp::Ordering;

// Whether a partition's slot comes before a group.
fn is_before(group: &GroupRef, partition: &Name, slot: u16) -> bool
    ensures { result ≡ is_before group.now partition.now slot }
{
    match partition.cmp(&group.partition) {
        Ordering::Less => true,
        Ordering::Equal => slot < group.lo,
        Ordering::Greater => false,
    }
}

// Whether all targets end before a group.
fn end_before(group: &GroupRef, targets: &[Target]) -> bool
    ensures { result ≡ end_before group.now targets.now }
{
    targets
        .iter()
        .all(|s| is_before(group, &s.group.partition, s.group.hi))
}

// Whether all targets begin in a group or behind it.
fn begin_behind(group: &GroupRef, targets: &[Target]) -> bool
    ensures { result ≡ begin_behind group.now targets.now }
{
    targets
        .iter()
        .all(|s| !is_before(group, &s.group.partition, s.group.lo))
}

// Adds a write to those before a group, or to those behind.
fn push_write(
    group: &GroupRef,
    write: Write,
    before: &mut Vec<Write>,
    behind: &mut Vec<Write>,
) -> Result<(), AllocError>
    ensures before { OnOk result (before.new.items ≡ before.old.items ++ filter (lies_before group.now) (write ∷ [])) }
    ensures behind { OnOk result (behind.new.items ≡ behind.old.items ++ filter (lies_behind group.now) (write ∷ [])) }
{
    let is_before = is_before(group, partition_of(&write), slot_in(&write));
    if is_before {
        before.push(write)?;
        return Ok(());
    }
    behind.push(write)?;
    Ok(())
}

// The writes before a group, and the writes behind.
fn split(
    alloc: Global,
    group: &GroupRef,
    writes: Vec<Write>,
) -> Result<(Vec<Write>, Vec<Write>), AllocError>
    ensures before { IfOk result (λ halves. halves.0.items ≡ filter (lies_before group.now) writes.items) }
    ensures behind { IfOk result (λ halves. halves.1.items ≡ filter (lies_behind group.now) writes.items) }
{
    let mut before = Vec::new(alloc);
    let mut behind = Vec::new(alloc);
    for write in writes {
        push_write(group, write, &mut before, &mut behind)?;
    }
    Ok((before, behind))
}

// The writes that lie in a group. Where all do, none is moved.
fn writes_in(alloc: Global, group: &GroupRef, writes: Vec<Write>) -> Result<Writes, AllocError>
    ensures { IfOk result (λ own. own ≡ filter (is_in_group group.now) writes.items) }
{
    if all_in_group(group, &writes) {
        return Ok(Sequence::from_vec(writes));
    }
    let mut own = Vec::new(alloc);
    for write in writes {
        if is_in_group(group, &write) {
            own.push(write)?;
        }
    }
    Ok(Sequence::from_vec(own))
}

// Adds the writes of at most one target.
fn push_only(
    alloc: Global,
    targets: &[Target],
    writes: Vec<Write>,
    parts: &mut Vec<Writes>,
) -> Result<(), AllocError>
    requires { length targets.now < 2 }
    ensures { OnOk result (parts.new.items ≡ parts.old.items ++ writes_of_each targets.now writes.items) }
{
    let Some((only, _)) = targets.split_first() else {
        return Ok(());
    };
    parts.push(writes_in(alloc, &only.group, writes)?)?;
    Ok(())
}

// Adds the writes of each target, in a pass over the writes for each.
fn push_each(
    alloc: Global,
    targets: &[Target],
    writes: &[Write],
    parts: &mut Vec<Writes>,
) -> Result<(), AllocError>
    ensures { OnOk result (parts.new.items ≡ parts.old.items ++ writes_of_each targets.now writes.now) }
{
    for target in targets {
        let own = copies_in_group(alloc, &target.group, writes)?;
        parts.push(Sequence::from_vec(own))?;
    }
    Ok(())
}

// Adds the writes of each target. Where the targets are in the order of their partitions and slots, as a table gives them,
// the writes are split between the halves of the targets, and none is copied.
fn share(
    alloc: Global,
    targets: &[Target],
    writes: Vec<Write>,
    parts: &mut Vec<Writes>,
) -> Result<(), AllocError>
    ensures { OnOk result (parts.new.items ≡ parts.old.items ++ writes_of_each targets.now writes.items) }
{
    if targets.len() < 2 {
        return push_only(alloc, targets, writes, parts);
    }
    let (lower, upper) = targets.split_at(targets.len() / 2);
    let group = &upper[0].group;
    if !end_before(group, lower) || !begin_behind(group, upper) {
        return push_each(alloc, targets, &writes, parts);
    }
    let (before, behind) = split(alloc, group, writes)?;
    share(alloc, lower, before, parts)?;
    share(alloc, upper, behind, parts)
}

/// The writes with the instant and their places in the batch, of each target those that lie in its group. The only error is
/// want of memory.
pub(crate) fn parts_at(
    alloc: Global,
    batch: Writes,
    t: InstantTime,
    targets: &[Target],
) -> Result<Vec<Writes>, AllocError>
    requires { length batch < 2 ^ 32 }
    ensures { IfOk result (λ parts. parts.items ≡ writes_of_each targets.now (writes_from t 0 batch)) }
{
    let placed = writes_at(alloc, batch, t)?;
    let mut parts = Vec::with_capacity(alloc, targets.len())?;
    share(alloc, targets, placed, &mut parts)?;
    Ok(parts)
}
