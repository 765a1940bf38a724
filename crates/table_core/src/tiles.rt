// The groups of slots.
ghost use Rattle.std.specs.Prelude.{◌≡◌, ◌||◌, ◌++◌, ◌∷◌, [], IfOk, OnOk, map};
ghost use Rattle.std.specs.List.Sorted.{IsStrictlySortedBy};
ghost use Rattle.hudi_base.specs.InstantTime.{first_time};
ghost use Rattle.hudi_base.specs.declared.file_group.GroupRef.{GroupRef};
ghost use Rattle.key_index.specs.Tiling.{is_among, is_same_group};
ghost use Rattle.table_core.specs.TileTables.{is_tile, is_tile_of, is_tile_asked};
ghost use Rattle.table_history.specs.Tables.{Table};
ghost use Rattle.table_history.specs.Targets.{AreTargets, group_cmp, target_of_group};

use hudi_base::{GroupRef, InstantTime, Name, Sequence, SlotRange, Target};
use key_index::Buckets;
use std::alloc::{AllocError, Global};
use std::collections::BTreeSet;
use table_history::PartitionSlots;

// A group that a partition begins with.
fn insert_group(
    alloc: Global,
    partition: &Name,
    range: SlotRange,
    groups: &mut BTreeSet<GroupRef>,
) -> Result<(), AllocError>
    ensures { OnOk result ((group : GroupRef) → is_among groups.new.keys group
        ≡ (is_same_group group (record { partition = partition.now; lo = range.lo; hi = range.hi; born = first_time })
        || is_among groups.old.keys group)) }
{
    let group = GroupRef {
        partition: partition.copy(alloc)?,
        lo: range.lo,
        hi: range.hi,
        born: InstantTime::FIRST,
    };
    groups.insert(group)?;
    Ok(())
}

// The group of a slot.
fn insert_slot(
    alloc: Global,
    buckets: &Buckets,
    partition: &Name,
    slot: u16,
    groups: &mut BTreeSet<GroupRef>,
) -> Result<(), AllocError>
    ensures { OnOk result ((group : GroupRef) → is_among groups.new.keys group
        ≡ (is_among groups.old.keys group || is_tile buckets.now partition.now slot group)) }
{
    insert_group(alloc, partition, buckets.range_of(slot), groups)
}

// The groups of slots of one partition.
fn insert_slots(
    alloc: Global,
    buckets: &Buckets,
    partition: &Name,
    slots: &[u16],
    groups: &mut BTreeSet<GroupRef>,
) -> Result<(), AllocError>
    ensures { OnOk result ((group : GroupRef) → is_among groups.new.keys group
        ≡ (is_among groups.old.keys group || is_tile_of buckets.now partition.now slots.now group)) }
{
    for slot in slots {
        insert_slot(alloc, buckets, partition, *slot, groups)?;
    }
    Ok(())
}

// The groups of slots.
fn groups_of(
    alloc: Global,
    buckets: &Buckets,
    slots: &[PartitionSlots],
) -> Result<BTreeSet<GroupRef>, AllocError>
    ensures { IfOk result (λ groups. (group : GroupRef) → is_among groups.keys group
        ≡ is_tile_asked buckets.now slots.now group) }
{
    let mut groups = BTreeSet::new(alloc);
    for asked in slots {
        insert_slots(
            alloc,
            buckets,
            &asked.partition,
            asked.slots.as_slice(),
            &mut groups,
        )?;
    }
    Ok(groups)
}

fn push_target(
    alloc: Global,
    group: &GroupRef,
    targets: &mut Sequence<Target>,
) -> Result<(), AllocError>
    ensures { OnOk result (targets.new ≡ targets.old ++ target_of_group group.now ∷ []) }
{
    targets.push(Target {
        group: group.copy(alloc)?,
        slice: group.born,
    })
}

// The current slices of groups.
fn targets_of(alloc: Global, groups: &BTreeSet<GroupRef>) -> Result<Sequence<Target>, AllocError>
    ensures are { IfOk result (λ targets. targets ≡ map target_of_group groups.now.keys) }
    ensures order { IsStrictlySortedBy group_cmp groups.now.keys }
{
    let mut targets = Sequence::new(alloc);
    for group in groups.iter() {
        push_target(alloc, group, &mut targets)?;
    }
    Ok(targets)
}

// The targets of a deltacommit with these slots. It takes n log n steps for n slots.
pub(crate) fn targets_of_slots(
    alloc: Global,
    buckets: &Buckets,
    slots: &[PartitionSlots],
) -> Result<Sequence<Target>, AllocError>
    ensures { IfOk result (λ targets. (A : Table) → A.props.buckets ≡ buckets.now → AreTargets A slots.now targets) }
{
    let groups = groups_of(alloc, buckets, slots)?;
    targets_of(alloc, &groups)
}
