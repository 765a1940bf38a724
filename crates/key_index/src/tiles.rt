// The groups that share the slots of a partition.
ghost use Rattle.std.specs.Prelude.{◌≡◌, ◌≤◌, ◌<◌, ◌∷◌, ◌++◌, [], IfOk, OnOk, OnErr, IfErr, Err, ℕ, not, filter};
ghost use Rattle.std.specs.List.Sorted.{IsPermutation};
ghost use Rattle.key_index.specs.declared.tile_error.TileError.TheVariants.{Memory, NotATiling};
ghost use Rattle.key_index.specs.Tiling.{first_group, first_groups, first_tiling, groups_at, groups_after, empty_after};
ghost use Rattle.key_index.specs.Tiling.{AreInOrder, IsTiling, IsLeastMistiled, IsReplaced, has_slots, without};
ghost use Rattle.key_index.specs.TileRuns.{RunsOn};

use crate::TileError;
use crate::group_lists::{least_mistiled, push_empty, push_with_slots, push_without};
use hudi_base::{GroupRef, InstantTime, Name};
use std::alloc::{AllocError, Global};
use std::marker::Model;

/// The file groups of a partition. Each of its 65,536 slots has exactly one of them. Groups may also stand here that
/// have no slot, since their `lo` is above their `hi`. Contracts see the record `Tiling` of specs/Tiling.antt.
#[derive(Drop)]
pub struct Tiles {
    partition: Name,
    // In order of their slots.
    groups: Vec<GroupRef>,
    empty: Vec<GroupRef>,
}

impl Model for Tiles {
    ghost use Rattle.key_index.specs.Tiling.{Tiling};
    ghost use Rattle.key_index.specs.TileRuns.{RunsOn};

    ghost Value = { Tiling };

    ghost view = { λ tiles. record {
      partition = tiles.partition;
      groups = tiles.groups.items;
      empty = tiles.empty.items;
    } };

    ghost invariant = { λ tiles. RunsOn 0 tiles.groups.items };
}

impl Tiles {
    /// The partition whose slots they share.
    pub fn partition(&self) -> &Name
        ensures { result.now ≡ self.now.partition }
    {
        &self.partition
    }

    /// The groups that have slots, in order of their slots.
    pub fn groups(&self) -> &[GroupRef]
        ensures value { result.now ≡ self.now.groups }
        ensures tiling { IsTiling self.now.groups }
        ensures order { AreInOrder self.now.groups }
    {
        &self.groups
    }

    /// The groups that have no slot, in the order in which they came.
    pub fn empty(&self) -> &[GroupRef]
        ensures { result.now ≡ self.now.empty }
    {
        &self.empty
    }

    /// The one group that has a slot. It takes no memory.
    pub fn group(&self, slot: u16) -> &GroupRef
        ensures { groups_at slot self.now.groups ≡ result.now ∷ [] }
    {
        group_at(&self.groups, slot)
    }

    /// Puts the new groups in place of the old ones. An old group that isn't here counts for nothing, and what
    /// partition a new group names isn't tested. `NotATiling` says that then some slot wouldn't have exactly one group,
    /// and names the least. An error changes nothing. It takes n log n steps for n groups, old, new and present ones.
    pub fn replace(
        &mut self,
        alloc: Global,
        old: &[GroupRef],
        new: &[GroupRef],
    ) -> Result<(), TileError>
        ensures replaced { OnOk result (IsReplaced self.old self.new old.now new.now) }
        ensures tiling { OnOk result (IsTiling (groups_after self.old old.now new.now)) }

        ensures refused { (slot : ℕ)
            → result ≡ Err (NotATiling slot) → IsLeastMistiled (groups_after self.old old.now new.now) slot }
        ensures err { OnErr result (self.new ≡ self.old) }
    {
        let groups = groups_after(alloc, &self.groups, old, new)?;
        if let Some(slot) = least_mistiled(&groups) {
            return Err(TileError::NotATiling(slot));
        }
        let empty = empty_after(alloc, &self.empty, old, new)?;
        self.groups = groups;
        self.empty = empty;
        Ok(())
    }
}

// The one group of a tiling that has a slot.
fn group_at(groups: &[GroupRef], slot: u16) -> &GroupRef
    requires { RunsOn 0 groups.now }
    ensures { groups_at slot groups.now ≡ result.now ∷ [] }
{
    let above = groups.partition_point(|group| group.lo <= slot);
    &groups[above - 1]
}

// The groups that have slots afterwards, in order.
fn groups_after(
    alloc: Global,
    groups: &[GroupRef],
    old: &[GroupRef],
    new: &[GroupRef],
) -> Result<Vec<GroupRef>, AllocError>
    ensures permutation { IfOk result (λ after.
        IsPermutation (without old.now groups.now ++ filter has_slots new.now) after.items) }
    ensures order { IfOk result (λ after. AreInOrder after.items) }
{
    let mut after = Vec::new(alloc);
    push_without(alloc, old, groups, &mut after)?;
    push_with_slots(alloc, new, &mut after)?;
    after.sort_by_key(|group| group.lo)?;
    Ok(after)
}

// The groups that have none.
fn empty_after(
    alloc: Global,
    empty: &[GroupRef],
    old: &[GroupRef],
    new: &[GroupRef],
) -> Result<Vec<GroupRef>, AllocError>
    ensures { IfOk result (λ after.
        after.items ≡ without old.now empty.now ++ filter (λ group. not (has_slots group)) new.now) }
{
    let mut after = Vec::new(alloc);
    push_without(alloc, old, empty, &mut after)?;
    push_empty(alloc, new, &mut after)?;
    Ok(after)
}

fn first_group(
    alloc: Global,
    partition: &Name,
    buckets: u16,
    i: u16,
) -> Result<GroupRef, AllocError>
    requires some { 1 ≤ buckets }
    requires number { i < buckets }
    ensures { IfOk result (λ group. group ≡ first_group partition.now buckets i) }
{
    let buckets = buckets as u32;
    let i = i as u32;
    Ok(GroupRef {
        partition: partition.copy(alloc)?,
        lo: (i * 65_536 / buckets) as u16,
        hi: ((i + 1) * 65_536 / buckets - 1) as u16,
        born: InstantTime::FIRST,
    })
}

fn push_first_group(
    alloc: Global,
    partition: &Name,
    buckets: u16,
    i: u16,
    groups: &mut Vec<GroupRef>,
) -> Result<(), AllocError>
    requires some { 1 ≤ buckets }
    requires number { i < buckets }
    ensures { OnOk result (groups.new.items ≡ groups.old.items ++ first_group partition.now buckets i ∷ []) }
{
    let group = first_group(alloc, partition, buckets, i)?;
    groups.push(group)?;
    Ok(())
}

fn first_groups(alloc: Global, partition: &Name, buckets: u16) -> Result<Vec<GroupRef>, AllocError>
    requires { 1 ≤ buckets }
    ensures { IfOk result (λ groups. groups.items ≡ first_groups partition.now buckets) }
{
    let mut groups = Vec::new(alloc);
    for i in 0..buckets {
        push_first_group(alloc, partition, buckets, i, &mut groups)?;
    }
    Ok(groups)
}

/// The groups that a partition begins with: so many, from 1 to 1024, with as nearly the same number of slots as can
/// be. The only error is want of memory.
pub fn first(alloc: Global, partition: &Name, buckets: u16) -> Result<Tiles, TileError>
    requires some { 1 ≤ buckets }
    requires most { buckets ≤ 1024 }
    ensures value { IfOk result (λ tiles. tiles ≡ first_tiling partition.now buckets) }
    ensures error { IfErr result (λ error. error ≡ Memory) }
{
    let groups = first_groups(alloc, partition, buckets)?;
    Ok(Tiles {
        partition: partition.copy(alloc)?,
        groups,
        empty: Vec::new(alloc),
    })
}
