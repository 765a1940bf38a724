// Lists of groups on the way to a tiling.
ghost use Rattle.std.specs.Prelude.{◌≡◌, ◌++◌, ◌∷◌, [], ◌<◌, ◌||◌, IfOk, OnOk, IfSome, not, filter};
ghost use Rattle.hudi_base.specs.declared.file_group.GroupRef.{GroupRef};
ghost use Rattle.key_index.specs.Slots.{slot_count};
ghost use Rattle.key_index.specs.Tiling.{is_same_group, is_among, has_slots, without};
ghost use Rattle.key_index.specs.TileRuns.{least_mistiled};

use hudi_base::GroupRef;
use std::alloc::{AllocError, Global};
use std::collections::BTreeSet;

fn insert_copy(
    alloc: Global,
    group: &GroupRef,
    set: &mut BTreeSet<GroupRef>,
) -> Result<(), AllocError>
    ensures { OnOk result ((other : GroupRef)
        → is_among set.new.keys other ≡ (is_same_group other group.now || is_among set.old.keys other)) }
{
    let copied = group.copy(alloc)?;
    set.insert(copied)?;
    Ok(())
}

// The groups as a set.
fn set_of(alloc: Global, groups: &[GroupRef]) -> Result<BTreeSet<GroupRef>, AllocError>
    ensures { IfOk result (λ set. (group : GroupRef) → is_among set.keys group ≡ is_among groups.now group) }
{
    let mut set = BTreeSet::new(alloc);
    for group in groups {
        insert_copy(alloc, group, &mut set)?;
    }
    Ok(set)
}

fn is_among(groups: &BTreeSet<GroupRef>, group: &GroupRef) -> bool
    ensures { result ≡ is_among groups.now.keys group.now }
{
    groups.contains(group)
}

fn has_slots(group: &GroupRef) -> bool
    ensures { result ≡ has_slots group.now }
{
    group.lo <= group.hi
}

fn push_copy(alloc: Global, group: &GroupRef, out: &mut Vec<GroupRef>) -> Result<(), AllocError>
    ensures { OnOk result (out.new.items ≡ out.old.items ++ group.now ∷ []) }
{
    let copied = group.copy(alloc)?;
    out.push(copied)?;
    Ok(())
}

// Adds copies of the groups that aren't among the old ones.
pub(crate) fn push_without(
    alloc: Global,
    old: &[GroupRef],
    groups: &[GroupRef],
    out: &mut Vec<GroupRef>,
) -> Result<(), AllocError>
    ensures { OnOk result (out.new.items ≡ out.old.items ++ without old.now groups.now) }
{
    let gone = set_of(alloc, old)?;
    for group in groups {
        if !is_among(&gone, group) {
            push_copy(alloc, group, out)?;
        }
    }
    Ok(())
}

// Adds copies of the groups that have slots.
pub(crate) fn push_with_slots(
    alloc: Global,
    groups: &[GroupRef],
    out: &mut Vec<GroupRef>,
) -> Result<(), AllocError>
    ensures { OnOk result (out.new.items ≡ out.old.items ++ filter has_slots groups.now) }
{
    for group in groups {
        if has_slots(group) {
            push_copy(alloc, group, out)?;
        }
    }
    Ok(())
}

// Adds copies of the groups that have none.
pub(crate) fn push_empty(
    alloc: Global,
    groups: &[GroupRef],
    out: &mut Vec<GroupRef>,
) -> Result<(), AllocError>
    ensures { OnOk result (out.new.items ≡ out.old.items ++ filter (λ group. not (has_slots group)) groups.now) }
{
    for group in groups {
        if !has_slots(group) {
            push_copy(alloc, group, out)?;
        }
    }
    Ok(())
}

// The slot at which groups that are in order go wrong.
pub(crate) fn least_mistiled(groups: &[GroupRef]) -> Option<u16>
    ensures value { result ≡ least_mistiled 0 groups.now }
    ensures range { IfSome result (λ slot. slot < slot_count) }
{
    let mut next: u32 = 0;
    for group in groups {
        if group.lo as u32 != next {
            return Some(next.min(group.lo as u32) as u16);
        }
        next = group.hi as u32 + 1;
    }
    if next < 65_536 {
        Some(next as u16)
    } else {
        None
    }
}
