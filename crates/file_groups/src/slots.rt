// Parts in the order of their groups' slots, in which each group's own parts stand together.
ghost use Rattle.std.specs.Prelude.{◌≡◌, ◌++◌, ◌∷◌, [], IfOk, OnOk, filter};
ghost use Rattle.std.specs.List.Sorted.{IsNonDecreasingBy};
ghost use Rattle.hudi_base.specs.declared.file_group.GroupRef.{GroupRef};
ghost use Rattle.key_index.specs.Tiling.{is_same_group};
ghost use Rattle.file_groups.specs.Slots.{group_number};

use crate::{BasePart, LogPart};
use hudi_base::{GroupRef, Sequence};
use std::alloc::{AllocError, Global};

// A part of a file group.
pub(crate) trait InGroup: Drop {
    ghost group_of: { Self → GroupRef };

    // Some part of a group, which no code makes.
    ghost part_in: { GroupRef → Self };

    fn group(&self) -> &GroupRef
        ensures { result.now ≡ group_of self.now };

    fn second(&self, alloc: Global) -> Result<Self, AllocError>
        ensures { IfOk result (λ copied. copied ≡ self.now) };

    ghost stands_in: { (group : GroupRef) → group_of (part_in group) ≡ group };
}

impl InGroup for BasePart {
    ghost use Rattle.std.specs.Prelude.{[]};
    ghost use Rattle.std.proofs.Common.{refl};

    ghost group_of = { λ base. base.group };

    ghost part_in = { λ group. record { group = group; time = 0; name = []; length = 0 } };

    ghost stands_in = { λ group. refl };

    fn group(&self) -> &GroupRef {
        &self.group
    }

    fn second(&self, alloc: Global) -> Result<BasePart, AllocError> {
        self.copy(alloc)
    }
}

impl InGroup for LogPart {
    ghost use Rattle.std.specs.Prelude.{[]};
    ghost use Rattle.std.proofs.Common.{refl};

    ghost group_of = { λ log. log.group };

    ghost part_in = { λ group. record { group = group; slice = 0; version = 0; name = []; length = 0 } };

    ghost stands_in = { λ group. refl };

    fn group(&self) -> &GroupRef {
        &self.group
    }

    fn second(&self, alloc: Global) -> Result<LogPart, AllocError> {
        self.copy(alloc)
    }
}

fn is_same_group(g: &GroupRef, h: &GroupRef) -> bool
    ensures { result ≡ is_same_group g.now h.now }
{
    g.partition == h.partition && g.lo == h.lo && g.hi == h.hi && g.born == h.born
}

fn group_number(group: &GroupRef) -> u128
    ensures { result ≡ group_number group.now }
{
    let slots = group.lo as u128 * 65_536 + group.hi as u128;
    slots * 0x1_0000_0000_0000 + group.born.ms() as u128
}

// Brings parts into the order of their groups' slots. Those of one group keep their order.
pub(crate) fn sort_by_slots<P: InGroup>(parts: &mut Vec<P>) -> Result<(), AllocError>
    ensures order { OnOk result (IsNonDecreasingBy (λ part. group_number (P.group_of part)) parts.new.items) }
    ensures own { OnOk result ((group : GroupRef)
        → filter (λ part. is_same_group (P.group_of part) group) parts.new.items
        ≡ filter (λ part. is_same_group (P.group_of part) group) parts.old.items) }
{
    parts.sort_by_key(|part| group_number(part.group()))
}

fn push_second<P: InGroup>(alloc: Global, part: &P, own: &mut Sequence<P>) -> Result<(), AllocError>
    ensures { OnOk result (own.new ≡ own.old ++ part.now ∷ []) }
{
    let copied = part.second(alloc)?;
    own.push(copied)
}

// The parts of a group among these.
fn parts_in<P: InGroup>(
    alloc: Global,
    group: &GroupRef,
    parts: &[P],
) -> Result<Sequence<P>, AllocError>
    ensures { IfOk result (λ own. own ≡ filter (λ part. is_same_group (P.group_of part) group.now) parts.now) }
{
    let mut own = Sequence::new(alloc);
    for part in parts {
        if is_same_group(part.group(), group) {
            push_second(alloc, part, &mut own)?;
        }
    }
    Ok(own)
}

// The parts from the group's number on.
fn from_group<'a, P: InGroup>(group: &GroupRef, sorted: &'a [P]) -> &'a [P]
    requires { IsNonDecreasingBy (λ part. group_number (P.group_of part)) sorted.now }
    ensures order { IsNonDecreasingBy (λ part. group_number (P.group_of part)) result.now }
    ensures own { filter (λ part. is_same_group (P.group_of part) group.now) result.now
        ≡ filter (λ part. is_same_group (P.group_of part) group.now) sorted.now }
{
    let number = group_number(group);
    let first = sorted.partition_point(|part| group_number(part.group()) < number);
    &sorted[first..]
}

// The parts up to the group's number.
fn up_to_group<'a, P: InGroup>(group: &GroupRef, sorted: &'a [P]) -> &'a [P]
    requires { IsNonDecreasingBy (λ part. group_number (P.group_of part)) sorted.now }
    ensures { filter (λ part. is_same_group (P.group_of part) group.now) result.now
        ≡ filter (λ part. is_same_group (P.group_of part) group.now) sorted.now }
{
    let number = group_number(group);
    let end = sorted.partition_point(|part| group_number(part.group()) <= number);
    &sorted[..end]
}

// The parts of a group, out of all in the order of their groups' slots.
pub(crate) fn own_parts<P: InGroup>(
    alloc: Global,
    group: &GroupRef,
    sorted: &[P],
) -> Result<Sequence<P>, AllocError>
    requires { IsNonDecreasingBy (λ part. group_number (P.group_of part)) sorted.now }
    ensures { IfOk result (λ own. own ≡ filter (λ part. is_same_group (P.group_of part) group.now) sorted.now) }
{
    parts_in(alloc, group, up_to_group(group, from_group(group, sorted)))
}
